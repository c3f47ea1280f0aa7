//! When the work at a text ends.

use time_limits::Deadline;

/// Until when a strategy is found and tested, and until when sizes are searched, which is earlier, so that time is left to test their logs.
#[derive_where(Clone, Copy)]
pub(crate) struct Deadlines<'a, 'b, D: Deadline> {
    pub(crate) all: &'a D,
    pub(crate) sizes: &'b D,
}

/// The seconds after which sizes aren't searched any more, of those of a text: a log is tested in about half of the time in which it is found.
pub(crate) fn seconds_for_sizes(seconds: Option<u32>) -> Option<u32> {
    let seconds = seconds?;
    Some(seconds - seconds / 3)
}
