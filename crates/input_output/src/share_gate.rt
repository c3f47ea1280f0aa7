use crate::waiting::Waits;
use crate::{Gate, Moment};
use std::sync::atomic::{AtomicBool, AtomicU32, Ordering};

/// A gate for tests on one log, which two workers at least append to.
///
/// The first worker that comes to append there goes on, and the others wait until it has appended. It then waits
/// until one other worker has appended twice. After that nobody waits. Each wait looks 10,000 times at most.
#[derive(Drop)]
pub struct ShareGate {
    log: u32,
    waits: Waits,
    /// The number of the worker that came first, 0 before.
    leader: AtomicU32,
    leader_appended: AtomicBool,
    /// Whether each worker but the first, from 1 to 8, has appended.
    appended: [AtomicBool; 8],
    shared: AtomicBool,
}

impl ShareGate {
    /// A gate on the log of this number, `2 * size` for the system's side, and `2 * size + 1` for the environment's.
    pub fn new(log: u32) -> ShareGate {
        ShareGate {
            log,
            waits: Waits::new(),
            leader: AtomicU32::new(0),
            leader_appended: AtomicBool::new(false),
            appended: [
                AtomicBool::new(false),
                AtomicBool::new(false),
                AtomicBool::new(false),
                AtomicBool::new(false),
                AtomicBool::new(false),
                AtomicBool::new(false),
                AtomicBool::new(false),
                AtomicBool::new(false),
            ],
            shared: AtomicBool::new(false),
        }
    }

    /// Whether the first worker was waited for and was shared with, and no wait gave up.
    pub fn met(&self) -> bool {
        self.shared.load(Ordering::SeqCst) && !self.waits.gave_up()
    }

    /// The number of looks of all waits so far.
    pub fn looks(&self) -> u64 {
        self.waits.looks()
    }

    /// The first worker that comes leads.
    fn leads(&self, worker: u32) -> bool {
        match self
            .leader
            .compare_exchange(0, worker, Ordering::SeqCst, Ordering::SeqCst)
        {
            Ok(_) => true,
            Err(leader) => leader == worker,
        }
    }

    fn after_append(&self, worker: u32) {
        if self.leader.load(Ordering::SeqCst) == worker {
            if !self.leader_appended.swap(true, Ordering::SeqCst) {
                self.waits.wait_for(&self.shared);
            }
            return;
        }
        let place = (worker as usize).saturating_sub(1);
        if place < 8 && self.appended[place].swap(true, Ordering::SeqCst) {
            self.shared.store(true, Ordering::SeqCst);
        }
    }
}

impl Gate for ShareGate {
    fn pass(&self, worker: u32, log: u32, moment: Moment) {
        if log != self.log {
            return;
        }
        match moment {
            Moment::BeforeAppend => {
                if !self.leads(worker) {
                    self.waits.wait_for(&self.leader_appended);
                }
            }
            Moment::AfterAppend => self.after_append(worker),
            Moment::AfterRead => {}
        }
    }
}
