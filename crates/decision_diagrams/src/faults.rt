//! Limits of a package, and why a call gave no function.

use std::alloc::{AllocError, AllocFailed};

/// What a package may use.
#[derive(Clone, Copy, Debug)]
pub struct DiagramLimits {
    /// The nodes that stand at once, at most 2^27.
    pub nodes: usize,
    /// The bytes of all tables.
    pub bytes: usize,
    /// The entries of the cache of operations, a power of two. It begins small and grows with the nodes.
    pub cache: usize,
}

/// Why there is no function.
#[derive(Clone, Copy, Debug, PartialEq, Eq)]
pub enum DiagramFault {
    /// The limit of nodes is passed.
    TooManyNodes,
    /// The limit of bytes is passed.
    TooManyBytes,
    /// The steps that `set_steps` gave are used up.
    TooManySteps,
    /// A package has at most 4,096 variables, so that the stack isn't exhausted.
    TooManyVariables,
    /// The variable isn't one of the package.
    UnknownVariable,
    /// An order doesn't have each variable once, or nodes were made in another one.
    WrongOrder,
    /// The machine has no more memory.
    OutOfMemory,
}

impl Default for DiagramLimits {
    fn default() -> DiagramLimits {
        DiagramLimits {
            nodes: 1 << 24,
            bytes: 1 << 30,
            cache: 1 << 20,
        }
    }
}

impl From<AllocError> for DiagramFault {
    fn from(_error: AllocError) -> DiagramFault {
        DiagramFault::OutOfMemory
    }
}

impl<T: Drop> From<AllocFailed<T>> for DiagramFault {
    fn from(_error: AllocFailed<T>) -> DiagramFault {
        DiagramFault::OutOfMemory
    }
}
