//! What keeps an annotation from being made.

use std::alloc::{AllocError, AllocFailed};

/// A limit that annotations over named states keep.
#[derive(Clone, Copy, Debug, PartialEq, Eq)]
pub enum Limit {
    /// At most 1,000,000 pairs of latch values and states.
    Pairs,
    /// At most 20,000 states.
    States,
    /// At most 2^26 steps of the circuit: one for each pair and each letter that is read. There are at most 16 inputs.
    Steps,
    /// At most 100,000 leaves of a state's set.
    Leaves,
}

/// What keeps an annotation from being made.
#[derive(Clone, Copy)]
pub enum Stop {
    Passed(Limit),
    NoMemory,
    /// The time is over.
    Time,
}

impl From<AllocError> for Stop {
    fn from(_error: AllocError) -> Stop {
        Stop::NoMemory
    }
}

impl<T: Drop> From<AllocFailed<T>> for Stop {
    fn from(_error: AllocFailed<T>) -> Stop {
        Stop::NoMemory
    }
}
