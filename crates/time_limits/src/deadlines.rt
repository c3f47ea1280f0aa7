//! When work ends.

use crate::stopwatches::Stopwatch;

/// Tells whether the time of some work is over, at each of its turns. Nothing is promised of it.
pub trait Deadline {
    fn is_over(&self) -> bool;
}

/// Time without end.
#[derive(Clone, Copy, Debug, PartialEq, Eq)]
pub struct NoDeadline;

impl Deadline for NoDeadline {
    fn is_over(&self) -> bool {
        false
    }
}

/// The end of the time that one text may take, by a stopwatch.
#[derive(Drop)]
pub struct TextDeadline<'a, S> {
    stopwatch: &'a S,
    /// The end, in the stopwatch's milliseconds. There is none where the text may take as long as it takes.
    end: Option<u64>,
}

impl<'a, S: Stopwatch> TextDeadline<'a, S> {
    /// The end of so many seconds that begin now.
    pub fn begin(stopwatch: &'a S, seconds: Option<u32>) -> Self {
        let end = match seconds {
            Some(seconds) => {
                let lasts = 1000 * u64::from(seconds);
                Some(stopwatch.milliseconds().saturating_add(lasts))
            },
            None => None,
        };
        TextDeadline { stopwatch, end }
    }
}

impl<S: Stopwatch> Deadline for TextDeadline<'_, S> {
    fn is_over(&self) -> bool {
        match self.end {
            Some(end) => self.stopwatch.milliseconds() >= end,
            None => false,
        }
    }
}
