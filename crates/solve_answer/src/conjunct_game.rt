//! The game of a text's conjuncts. Nothing is said of what is found: it is tested.

use crate::finding::{Printable, Strategy, annotated};
use crate::reducing::made_small;
use crate::told::conjunct_end;
use outcome_news::{ConjunctEnd, Withheld};
use reactivity_machine::{Budget, Found, Outcome, Question, find};
use solve_ground::SolveText;
use std::alloc::{AllocError, Global};
use time_limits::Deadline;

/// What the game may use: some seconds.
const BUDGET: Budget = Budget {
    steps: 1_000_000_000,
    positions: 400_000,
    edges: 20_000_000,
    bytes: 1_000_000_000,
};

/// A strategy, or why there is none.
#[derive(Drop)]
pub(crate) enum ByConjuncts {
    Of(Strategy),
    Without(ConjunctEnd),
}

/// The strategy of a win in the game of the text's conjuncts, if there is one that can be annotated. Where memory runs out there is none.
pub(crate) fn by_conjuncts<D: Deadline>(
    alloc: Global,
    text: &SolveText,
    deadline: &D,
) -> ByConjuncts {
    if deadline.is_over() {
        return ByConjuncts::Without(ConjunctEnd::Unplayed);
    }
    match played(alloc, text, deadline) {
        Ok(outcome) => outcome,
        Err(_) => ByConjuncts::Without(ConjunctEnd::NoMemory),
    }
}

fn played<D: Deadline>(
    alloc: Global,
    text: &SolveText,
    deadline: &D,
) -> Result<ByConjuncts, AllocError> {
    let question = Question {
        formulas: &text.formulas,
        normal: text.normal,
        inputs: &text.inputs,
        outputs: &text.outputs,
        kind: text.kind,
    };
    match find(alloc, question, BUDGET, deadline)? {
        Outcome::Found(found) => of_win(alloc, text, found, deadline),
        Outcome::NoWin(why) => Ok(ByConjuncts::Without(conjunct_end(why))),
        Outcome::NoCircuit(side) => Ok(ByConjuncts::Without(ConjunctEnd::Withheld(
            side,
            Withheld::CircuitTooLarge,
        ))),
    }
}

/// The strategy of a win, made small.
fn of_win<D: Deadline>(
    alloc: Global,
    text: &SolveText,
    found: Found,
    deadline: &D,
) -> Result<ByConjuncts, AllocError> {
    match annotated(alloc, text, found.side, found.circuit, deadline)? {
        Printable::Of(strategy) => {
            let small = made_small(alloc, text, strategy, deadline);
            Ok(ByConjuncts::Of(small))
        }
        Printable::Withheld(side, why) => {
            Ok(ByConjuncts::Without(ConjunctEnd::Withheld(side, why)))
        }
    }
}
