use crate::waiting::Waits;
use crate::{Gate, Moment};
use std::sync::atomic::{AtomicBool, Ordering};

/// A gate for tests that holds worker 1 at its first append until worker 2 has appended and then read.
///
/// Worker 2's first append waits until worker 1 stands at its own. Each wait looks 10,000 times at most, so a
/// run ends also where one of the two workers never comes.
#[derive(Drop)]
pub struct HoldGate {
    waits: Waits,
    first_stands: AtomicBool,
    second_came: AtomicBool,
    second_appended: AtomicBool,
    second_read: AtomicBool,
}

impl HoldGate {
    /// A gate that nobody has passed.
    pub fn new() -> HoldGate {
        HoldGate {
            waits: Waits::new(),
            first_stands: AtomicBool::new(false),
            second_came: AtomicBool::new(false),
            second_appended: AtomicBool::new(false),
            second_read: AtomicBool::new(false),
        }
    }

    /// Whether both waits were begun and neither gave up.
    pub fn met(&self) -> bool {
        self.waits.begun() == 2 && !self.waits.gave_up()
    }

    /// The number of looks of both waits so far.
    pub fn looks(&self) -> u64 {
        self.waits.looks()
    }
}

impl Gate for HoldGate {
    fn pass(&self, worker: u32, _log: u32, moment: Moment) {
        match (worker, moment) {
            (1, Moment::BeforeAppend) => {
                if !self.first_stands.swap(true, Ordering::SeqCst) {
                    self.waits.wait_for(&self.second_read);
                }
            }
            (2, Moment::BeforeAppend) => {
                if !self.second_came.swap(true, Ordering::SeqCst) {
                    self.waits.wait_for(&self.first_stands);
                }
            }
            (2, Moment::AfterAppend) => self.second_appended.store(true, Ordering::SeqCst),
            (2, Moment::AfterRead) => {
                if self.second_appended.load(Ordering::SeqCst) {
                    self.second_read.store(true, Ordering::SeqCst);
                }
            }
            _ => {}
        }
    }
}
