//! The time that goes by, by the clock of the system.

use std::io;
use std::rt::Clock;
use std::time::{Duration, Instant};
use time_limits::Stopwatch;

/// A stopwatch that was started when it was made. Where there is no clock, no time goes by.
#[derive(Drop)]
pub struct ClockStopwatch<'a, R: Clock> {
    rt: &'a R,
    start: Option<Instant>,
}

impl<'a, R: Clock> ClockStopwatch<'a, R> {
    pub fn start(rt: &'a R) -> ClockStopwatch<'a, R> {
        ClockStopwatch {
            rt,
            start: Instant::now(rt).ok(),
        }
    }

    fn gone(&self) -> Option<io::Result<Duration>> {
        let start = self.start?;
        Some(start.elapsed(self.rt))
    }
}

impl<'a, R: Clock> Stopwatch for ClockStopwatch<'a, R> {
    fn milliseconds(&self) -> u64 {
        match self.gone() {
            Some(Ok(gone)) => {
                let thousandths = u64::from(gone.subsec_millis());
                gone.as_secs()
                    .saturating_mul(1000)
                    .saturating_add(thousandths)
            },
            _ => 0,
        }
    }
}
