//! Why nothing is said.

use annotation_maker::Stop;
use ltl_formula::AddFault;
use spec_faults::SpecFault;
use std::alloc::{AllocError, AllocFailed};

/// Why nothing is said of a machine or a text.
#[derive(Clone, Copy)]
pub(crate) enum Silence {
    /// A limit is passed, the time is over, or the text is one that `solve` refuses.
    Unknown,
    NoMemory,
}

impl From<AllocError> for Silence {
    fn from(_error: AllocError) -> Silence {
        Silence::NoMemory
    }
}

impl<T: Drop> From<AllocFailed<T>> for Silence {
    fn from(_error: AllocFailed<T>) -> Silence {
        Silence::NoMemory
    }
}

impl From<Stop> for Silence {
    fn from(stop: Stop) -> Silence {
        match stop {
            Stop::Passed(_) | Stop::Time => Silence::Unknown,
            Stop::NoMemory => Silence::NoMemory,
        }
    }
}

impl From<AddFault> for Silence {
    fn from(fault: AddFault) -> Silence {
        match fault {
            AddFault::TooManyNodes => Silence::Unknown,
            AddFault::NoMemory => Silence::NoMemory,
        }
    }
}

impl From<SpecFault> for Silence {
    fn from(fault: SpecFault) -> Silence {
        match fault {
            SpecFault::At { .. } => Silence::Unknown,
            SpecFault::NoMemory => Silence::NoMemory,
        }
    }
}

/// What was found, if anything.
pub(crate) fn unless_silent<T>(found: Result<T, Silence>) -> Result<Option<T>, AllocError> {
    match found {
        Ok(found) => Ok(Some(found)),
        Err(Silence::Unknown) => Ok(None),
        Err(Silence::NoMemory) => Err(AllocError),
    }
}
