//! Steps of a phase, and of those behind it.

use annotation_maker::{Limit, Stop};

/// How many steps may be taken in this phase, and how many behind it.
#[derive(Drop)]
pub(crate) struct Meter {
    left: u64,
    later: u64,
}

impl Meter {
    pub(crate) fn new(steps: u64) -> Meter {
        Meter {
            left: 0,
            later: steps,
        }
    }

    /// Begins a phase, which gets so many hundredths of the steps that are left for later ones, and keeps what is left of those before it.
    pub(crate) fn begin(&mut self, hundredths: u64) {
        let share = (self.later / 100)
            .saturating_mul(hundredths)
            .min(self.later);
        self.later = self.later.saturating_sub(share);
        self.left = self.left.saturating_add(share);
    }

    pub(crate) fn take(&mut self, steps: usize) -> Result<(), Stop> {
        let steps = steps as u64;
        if steps > self.left {
            self.left = 0;
            return Err(Stop::Passed(Limit::Steps));
        }
        self.left = self.left.saturating_sub(steps);
        Ok(())
    }

    /// Ends this phase.
    pub(crate) fn stop(&mut self) -> Result<(), Stop> {
        self.left = 0;
        Err(Stop::Passed(Limit::Steps))
    }
}
