use machine_table::ShowFault;
use std::alloc::{AllocError, AllocFailed};

/// Why nothing is written of a text, or of a machine beside it.
#[derive(Drop)]
pub enum TextFault {
    NotShown(ShowFault),
    /// The text has a fault, of which this line tells.
    Refused(Vec<u8>),
    /// The same of a text that was taken within the limits of `solve`.
    RefusedBySolve(Vec<u8>),
    /// The form isn't there for such a text, for this reason.
    NoSuchForm(&'static str),
}

impl From<ShowFault> for TextFault {
    fn from(fault: ShowFault) -> TextFault {
        TextFault::NotShown(fault)
    }
}

impl From<AllocError> for TextFault {
    fn from(_error: AllocError) -> TextFault {
        TextFault::NotShown(ShowFault::NoMemory)
    }
}

impl<T: Drop> From<AllocFailed<T>> for TextFault {
    fn from(_error: AllocFailed<T>) -> TextFault {
        TextFault::NotShown(ShowFault::NoMemory)
    }
}
