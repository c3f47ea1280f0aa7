//! How much work may be done.

use crate::silence::Silence;
use time_limits::Deadline;

/// The steps that are left, and when the work ends.
#[derive(Drop)]
pub(crate) struct Meter<'a, D> {
    deadline: &'a D,
    left: u64,
}

impl<'a, D: Deadline> Meter<'a, D> {
    pub(crate) fn new(deadline: &'a D, steps: u64) -> Self {
        Meter {
            deadline,
            left: steps,
        }
    }

    /// Takes some steps, unless too few are left or the time is over.
    pub(crate) fn take(&mut self, steps: usize) -> Result<(), Silence> {
        let steps = steps as u64;
        if steps > self.left || self.deadline.is_over() {
            return Err(Silence::Unknown);
        }
        self.left = self.left.saturating_sub(steps);
        Ok(())
    }
}
