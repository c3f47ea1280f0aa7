use std::alloc::{AllocError, AllocFailed};
use thiserror::Error;

/// Why a file is no circuit, with the line, from 1, at which the fault stands.
#[derive(Clone, Copy, Debug, PartialEq, Eq, Error)]
pub enum CircuitFault {
    #[error("out of memory")]
    NoMemory,
    /// The first line is no header, or it counts more variables than it allows.
    #[error("line {0} is no header")]
    BadHeader(u64),
    /// The line isn't of its form, isn't ended or is missing.
    #[error("line {0} isn't of its form")]
    BadLine(u64),
    /// The line uses a variable that no line defines.
    #[error("line {0} uses a variable that isn't defined")]
    Undefined(u64),
    /// The line defines a variable that an earlier line defines.
    #[error("line {0} defines a variable again")]
    DefinedTwice(u64),
    /// The gate of this line depends on itself.
    #[error("the gate of line {0} depends on itself")]
    Cycle(u64),
    /// A further count isn't 0, or a latch keeps its own first value.
    #[error("line {0} isn't supported")]
    Unsupported(u64),
    /// There are more than 100,000 variables.
    #[error("line {0} allows too many variables")]
    TooLarge(u64),
}

impl From<AllocError> for CircuitFault {
    ghost use Rattle.std.specs.Prelude.{◌≡◌};
    ghost use Rattle.aiger_text.specs.declared.faults.CircuitFault.TheVariants.{NoMemory};

    ghost from_gives = { λ _ fault. fault ≡ NoMemory };

    fn from(_error: AllocError) -> CircuitFault {
        CircuitFault::NoMemory
    }
}

impl<T: Drop> From<AllocFailed<T>> for CircuitFault {
    ghost use Rattle.std.specs.Prelude.{◌≡◌};
    ghost use Rattle.aiger_text.specs.declared.faults.CircuitFault.TheVariants.{NoMemory};

    ghost from_gives = { λ _ fault. fault ≡ NoMemory };

    fn from(_error: AllocFailed<T>) -> CircuitFault {
        CircuitFault::NoMemory
    }
}
