ghost use Rattle.std.specs.Prelude.{◌≡◌, ℕ, true, ◌++◌, IfOk, All};
ghost use Rattle.propositional_logic.specs.Clause.{IsFormula, IsWithinVariables};
ghost use Rattle.refutation_log.specs.Entry.{clauses_of};
ghost use Rattle.refutation_log.specs.Follows.{is_falsified_named};
ghost use Rattle.unit_propagate.specs.Trail.{literals_of, highest_level};
ghost use Rattle.unit_propagate.specs.Sound.{AreSoundMarks};
ghost use Rattle.clause_solver.specs.Levels.{IsQuietBelow};
ghost use Rattle.clause_solver.specs.Turned.{IsLesson};

use crate::order::Order;
use conflict_learn::{clause_of, learn};
use propositional_logic::Cnf;
use refutation_log::{Entry, SharedClause};
use std::alloc::{AllocError, Global};
use unit_propagate::Trail;

/// The entry that a worker learns from the falsified clause of that number, where each level below the highest one is quiet.
pub fn lesson(
    alloc: Global,
    worker: u32,
    base: &Cnf,
    seen: &[Entry],
    trail: &Trail,
    falsified: u64,
) -> Result<Entry, AllocError>
    requires variables { base.now.vars ≡ trail.now.vars }
    requires formula { IsFormula base.now.vars base.now.clauses.items }
    requires within { All (λ e. IsWithinVariables base.now.vars e.clause) seen.now }
    requires falsified { is_falsified_named (base.now.clauses.items ++ clauses_of seen.now) (literals_of trail.now.marks) falsified ≡ true }
    requires sound { AreSoundMarks (base.now.clauses.items ++ clauses_of seen.now) trail.now.marks }
    requires quiet { IsQuietBelow (highest_level trail.now.marks) (base.now.clauses.items ++ clauses_of seen.now) trail.now.marks }
    ensures { IfOk result (IsLesson worker base.now.vars (base.now.clauses.items ++ clauses_of seen.now)) }
{
    let _len = trail.len();
    let learned = learn(alloc, base, seen, trail, falsified)?;
    let clause = SharedClause::new(alloc, learned.clause)?;
    Ok(Entry {
        by: worker,
        clause,
        hints: learned.hints,
    })
}

/// Makes the variables of the clauses more active from which an entry was learnt.
pub(crate) fn reward(order: &mut Order, base: &Cnf, seen: &[Entry], entry: &Entry) {
    for number in entry.hints.numbers() {
        if let Some(clause) = clause_of(base, seen, *number) {
            order.reward(clause.lits());
        }
    }
    order.decay();
}
