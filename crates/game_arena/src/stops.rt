//! Steps that are counted, and why a game ends without a win.

use std::alloc::{AllocError, AllocFailed};

/// Why a game ended before it was decided.
#[derive(Clone, Copy)]
pub enum Stop {
    /// The steps of the budget are used up.
    Steps,
    /// The budget has no room for another position.
    Positions,
    /// The budget has no more bytes.
    Bytes,
    /// The machine has no more memory.
    NoMemory,
}

impl From<AllocError> for Stop {
    fn from(_error: AllocError) -> Stop {
        Stop::NoMemory
    }
}

impl<T: Drop> From<AllocFailed<T>> for Stop {
    fn from(_error: AllocFailed<T>) -> Stop {
        Stop::NoMemory
    }
}

/// Counts steps down to none. A step is about a look at one edge, at one state of a position or at one signal.
#[derive(Clone, Copy)]
pub struct Meter {
    used: u64,
    most: u64,
}

impl Meter {
    pub fn new(most: u64) -> Meter {
        Meter { used: 0, most }
    }

    /// Takes one step and so many more, or says that there are no more.
    pub fn take(&mut self, steps: usize) -> Result<(), Stop> {
        self.used = self.used.saturating_add(1).saturating_add(steps as u64);
        if self.used > self.most {
            return Err(Stop::Steps);
        }
        Ok(())
    }

    /// How many steps were taken.
    pub fn used(&self) -> u64 {
        self.used
    }

    /// Gives so many steps from now on.
    pub fn refill(&mut self, steps: u64) {
        self.most = self.used.saturating_add(steps);
    }
}
