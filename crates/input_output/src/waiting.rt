use crossbeam_utils::Backoff;
use std::sync::atomic::{AtomicBool, AtomicU64, Ordering};

/// A wait looks so often at most, so that a gate never keeps a run from its end.
const MOST_LOOKS: u32 = 10_000;
/// What a wait does between two looks takes about as long on each machine.
const ADDS_BETWEEN: u32 = 100_000;

/// The waits of a gate: how many there were, how often they looked, and whether one of them gave up.
#[derive(Drop)]
pub struct Waits {
    begun: AtomicU64,
    looks: AtomicU64,
    gave_up: AtomicBool,
    adds: AtomicU64,
}

impl Waits {
    pub fn new() -> Waits {
        Waits {
            begun: AtomicU64::new(0),
            looks: AtomicU64::new(0),
            gave_up: AtomicBool::new(false),
            adds: AtomicU64::new(0),
        }
    }

    /// Waits until the sign is given, or for the most looks.
    pub(crate) fn wait_for(&self, sign: &AtomicBool) {
        self.begun.fetch_add(1, Ordering::SeqCst);
        let backoff = Backoff::new();
        for _ in 0..MOST_LOOKS {
            self.looks.fetch_add(1, Ordering::SeqCst);
            if sign.load(Ordering::SeqCst) {
                return;
            }
            self.pass_time();
            backoff.snooze();
        }
        self.gave_up.store(true, Ordering::SeqCst);
    }

    fn pass_time(&self) {
        for _ in 0..ADDS_BETWEEN {
            self.adds.fetch_add(1, Ordering::SeqCst);
        }
    }

    /// The number of waits that were begun.
    pub fn begun(&self) -> u64 {
        self.begun.load(Ordering::SeqCst)
    }

    /// The number of looks of all waits so far.
    pub fn looks(&self) -> u64 {
        self.looks.load(Ordering::SeqCst)
    }

    /// Whether a wait had its most looks without the sign.
    pub(crate) fn gave_up(&self) -> bool {
        self.gave_up.load(Ordering::SeqCst)
    }
}
