//! What is found of a text. Nothing is said of it: it is tested.

use crate::finding::Strategy;
use crate::told::solution_of;
use letter_search::{Ended, Refutations};
use outcome_news::{ConjunctEnd, Engine, Solution, Unsolved};

/// A strategy, what is told of it, and what is known of the sizes below it.
#[derive(Drop)]
pub(crate) struct Discovery {
    pub(crate) strategy: Strategy,
    pub(crate) solution: Solution,
    pub(crate) below: Option<Refutations>,
}

/// What is found of a text: a strategy, or that there is none, and why.
#[derive(Drop)]
pub(crate) enum Found {
    Of(Discovery),
    Without(Unsolved, ConjunctEnd),
}

impl Discovery {
    pub(crate) fn new(strategy: Strategy, engine: Engine) -> Discovery {
        Discovery {
            solution: solution_of(&strategy, engine),
            strategy,
            below: None,
        }
    }

    /// A machine of the least size that there is, by the logs of all sizes below it.
    pub(crate) fn least(strategy: Strategy, found: Refutations) -> Discovery {
        let below = Refutations {
            logs: found.logs,
            ended: Ended::AllRefuted,
        };
        Discovery {
            solution: solution_of(&strategy, Engine::SizeSearch),
            strategy,
            below: Some(below),
        }
    }
}
