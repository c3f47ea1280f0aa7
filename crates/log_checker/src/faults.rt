ghost use Rattle.std.specs.Prelude.{◌≡◌};
ghost use Rattle.log_checker.specs.declared.faults.LogFault.TheVariants.{NoMemory};

use std::alloc::AllocError;

/// Why a log was refused. Places count from 0.
#[derive(Clone, Copy, Debug, PartialEq, Eq)]
pub enum LogFault {
    /// A hint of that entry names no clause before it, or one before the last hint isn't unit.
    BadHint(usize),
    /// That entry has no hint, or the last one isn't falsified.
    NotFalsified(usize),
    /// An equal clause stands before that entry.
    Repeated(usize),
    /// The last entry isn't the empty clause.
    NotClosed,
    /// An empty clause stands before that entry.
    AfterEnd(usize),
    /// That entry stands past the limit.
    OverLimit(usize),
    /// There was no memory.
    NoMemory,
}

impl From<AllocError> for LogFault {
    ghost from_gives = { λ _ fault. fault ≡ NoMemory };

    fn from(_error: AllocError) -> LogFault {
        LogFault::NoMemory
    }
}
