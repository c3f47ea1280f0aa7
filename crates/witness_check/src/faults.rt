//! Why a witness isn't proved.

ghost use Rattle.std.specs.Prelude.{◌≡◌};
ghost use Rattle.witness_check.specs.declared.faults.ObligationFault.TheVariants.{NoMemory};
ghost use Rattle.witness_check.specs.declared.faults.WitnessFault.TheVariants.{OutOfMemory};

use log_checker::LogFault;
use std::alloc::AllocError;

/// Why the log of an obligation is refused.
#[derive(Clone, Copy, Debug, PartialEq, Eq)]
pub enum ObligationFault {
    /// Its head says other numbers of variables and base clauses than the obligation has.
    Head,
    /// It isn't closed over the obligation's base clauses.
    Log(LogFault),
    /// There was no memory.
    NoMemory,
}

impl From<AllocError> for ObligationFault {
    ghost from_gives = { λ _ fault. fault ≡ NoMemory };

    fn from(_error: AllocError) -> ObligationFault {
        ObligationFault::NoMemory
    }
}

/// Why a witness isn't proved by its logs.
#[derive(Clone, Copy, Debug, PartialEq, Eq)]
pub enum WitnessFault {
    /// The log at that place, from 0, is refused, and each before it holds.
    At(usize, ObligationFault),
    /// There was no memory for the clauses that obligations share.
    OutOfMemory,
}

impl From<AllocError> for WitnessFault {
    ghost from_gives = { λ _ fault. fault ≡ OutOfMemory };

    fn from(_error: AllocError) -> WitnessFault {
        WitnessFault::OutOfMemory
    }
}
