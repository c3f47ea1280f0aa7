//! What a seat at the table knows, and the rule between any two steps. No value of these types is made but `Setup`.
use atomic_table::{Join, Play, Split, TableRule};
use propositional_logic::{Clause, Cnf};
use refutation_log::{Entry, LogState};
use std::collections::LinkedList;
use std::sync::Arc;

/// What an exchange was opened with, as contracts see it: the number of variables, the base clauses, the limit of the log and the
/// number of passes. No value of it is made.
pub struct Terms {
    pub vars: u32,
    pub base: LinkedList<Clause>,
    pub limit: Option<u64>,
    pub seats: u32,
}

/// What an exchange was opened with.
#[derive(Drop)]
pub struct Setup {
    pub base: Arc<Cnf>,
    pub limit: Option<u64>,
    pub seats: u32,
}

/// One pass, as the rule sees it: its number, what it has seen of the log, and the entries that it added.
pub struct Part {
    pub terms: Terms,
    pub number: u32,
    pub seen: LinkedList<Entry>,
    pub own: LinkedList<Entry>,
}

/// What a seat knows.
pub enum View {
    /// The passes that it holds between turns: one, or those that weren't given out yet or were taken in again.
    Resting(LinkedList<Part>),
    /// The pass whose turn it is, and the list at which the turn began. The seat has the log.
    Begun(LinkedList<Entry>, Part),
}

/// The one word is 1 while a seat has the log, and else 0. The one slot holds the log.
pub struct OneAtATime;

impl TableRule<LogState, View, Setup> for OneAtATime {
    ghost use Rattle.clause_exchange.specs.Rule.{Keeps, terms_of, dealer};

    ghost holds = { λ setup. Keeps (terms_of setup) };

    ghost first = { λ setup. dealer (terms_of setup) };
}

/// The turn begins, if no other seat has the log.
pub struct Take;

impl Play<LogState, View> for Take {
    ghost use Rattle.clause_exchange.specs.Steps.{taken};

    ghost then = { taken };
}

/// The turn ends: the log goes back.
pub struct Give;

impl Play<LogState, View> for Give {
    ghost use Rattle.clause_exchange.specs.Steps.{given};

    ghost then = { given };
}

/// A pass is given out.
pub struct Deal;

impl Split<View> for Deal {
    ghost use Rattle.clause_exchange.specs.Steps.{undealt, dealt};

    ghost left = { undealt };

    ghost right = { dealt };
}

/// A pass is taken in.
pub struct Gather;

impl Join<View> for Gather {
    ghost use Rattle.clause_exchange.specs.Steps.{gathered, spent};

    ghost both = { gathered };

    ghost spent = { spent };
}
