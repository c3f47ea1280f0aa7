//! The time that goes by.

/// Tells how many milliseconds have gone by since some moment. Nothing is promised of it.
pub trait Stopwatch {
    fn milliseconds(&self) -> u64;
}

/// Where no time goes by.
#[derive(Clone, Copy, Debug, PartialEq, Eq)]
pub struct NoStopwatch;

impl Stopwatch for NoStopwatch {
    fn milliseconds(&self) -> u64 {
        0
    }
}
