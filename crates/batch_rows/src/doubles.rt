//! A job of numbers.
use batch_run::Job;
use std::alloc::AllocError;
use std::sync::Wait;
use std::sync::atomic::{AtomicU64, Ordering};
use std::thread::Threads;

/// Doubles numbers, counts how often it is asked, and wants memory at the first few times.
#[derive(Drop)]
pub struct Doubles {
    asked: AtomicU64,
    short: u64,
}

impl Doubles {
    pub fn new() -> Doubles {
        Doubles::short_of_memory(0)
    }

    /// The first `times` calls want memory.
    pub fn short_of_memory(times: u64) -> Doubles {
        Doubles {
            asked: AtomicU64::new(0),
            short: times,
        }
    }

    /// How often it was asked.
    pub fn asked(&self) -> u64 {
        self.asked.load(Ordering::SeqCst)
    }
}

impl Job for Doubles {
    ghost use Rattle.std.specs.Prelude.{◌≡◌, ◌*◌};

    type Task = u32;

    type Answer = u64;

    ghost is_answer = { λ job task answer. answer ≡ 2 * task };

    fn answer<R: Threads + Wait + Sync>(&self, _rt: &R, task: &u32) -> Result<u64, AllocError> {
        if self.asked.fetch_add(1, Ordering::SeqCst) < self.short {
            return Err(AllocError);
        }
        Ok(2 * u64::from(*task))
    }
}
