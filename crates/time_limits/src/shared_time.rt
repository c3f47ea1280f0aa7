//! A stopwatch that many threads read.

use crate::stopwatches::Stopwatch;
use std::sync::Wait;
use std::sync::atomic::{AtomicU64, Ordering};
use std::time::Duration;

/// Between two looks at the stopwatch so many milliseconds go by.
const REST: u64 = 5;

/// What is kept while the time is told, and after that.
const TOLD: u64 = 0;

const STOPPED: u64 = 1;

/// The time of a stopwatch as one thread tells it to the others, about each hundredth of a second. It is a type of its own, since the workers
/// of a batch, who answer through a trait, can't lend a stopwatch of any type to threads.
#[derive(Drop)]
pub struct SharedTime {
    milliseconds: AtomicU64,
    state: AtomicU64,
}

impl SharedTime {
    /// The time that a stopwatch tells now.
    pub fn begin<S: Stopwatch>(stopwatch: &S) -> SharedTime {
        SharedTime {
            milliseconds: AtomicU64::new(stopwatch.milliseconds()),
            state: AtomicU64::new(TOLD),
        }
    }

    /// Tells the time of a stopwatch again and again, until it is stopped.
    pub fn follow<R: Wait, S: Stopwatch>(&self, rt: &R, stopwatch: &S) {
        for _ in rt.forever() {
            if self.state.load(Ordering::SeqCst) != TOLD {
                return;
            }
            self.milliseconds
                .store(stopwatch.milliseconds(), Ordering::SeqCst);
            self.state.park_timeout(rt, 0, Duration::from_millis(REST));
        }
    }

    /// Ends the telling.
    pub fn stop(&self) {
        self.state.store(STOPPED, Ordering::SeqCst);
        self.state.wake_all();
    }
}

impl Stopwatch for SharedTime {
    fn milliseconds(&self) -> u64 {
        self.milliseconds.load(Ordering::SeqCst)
    }
}
