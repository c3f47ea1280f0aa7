//! Why a formula has no conjuncts.

use std::alloc::{AllocError, AllocFailed};

/// Why a formula isn't taken apart.
#[derive(Clone, Copy, Debug, PartialEq, Eq)]
pub enum Refusal {
    /// It doesn't have the shape.
    NoShape,
    /// Its parts are too many.
    TooManyForms,
    NoMemory,
}

impl From<AllocError> for Refusal {
    fn from(_error: AllocError) -> Refusal {
        Refusal::NoMemory
    }
}

impl<T: Drop> From<AllocFailed<T>> for Refusal {
    fn from(_error: AllocFailed<T>) -> Refusal {
        Refusal::NoMemory
    }
}
