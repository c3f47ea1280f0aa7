ghost use Rattle.std.specs.Prelude.{◌≡◌};
ghost use Rattle.annot_check.specs.declared.faults.AnnotFault.TheVariants.{NoMemory};

use std::alloc::{AllocError, AllocFailed};

/// Why an annotation is refused.
#[derive(Clone, Copy, Debug, PartialEq, Eq)]
pub enum AnnotFault {
    /// There was no memory.
    NoMemory,
    /// 1: the line, from 1, isn't of its form, states a place again, isn't ended or is missing.
    BadLine(u64),
    /// 2: the pair of the resets and of state 0 isn't there, or its number is too small.
    NoStart,
    /// 3: the literal of this output, from 0, leads to an input, where the kind is Moore.
    NotMoore(usize),
    /// 4: this pair, from 0, leads to one that isn't there, or whose number is too small.
    Broken(usize),
}

impl From<AllocError> for AnnotFault {
    ghost from_gives = { λ _ fault. fault ≡ NoMemory };

    fn from(_error: AllocError) -> AnnotFault {
        AnnotFault::NoMemory
    }
}

impl<T: Drop> From<AllocFailed<T>> for AnnotFault {
    ghost from_gives = { λ _ fault. fault ≡ NoMemory };

    fn from(_error: AllocFailed<T>) -> AnnotFault {
        AnnotFault::NoMemory
    }
}
