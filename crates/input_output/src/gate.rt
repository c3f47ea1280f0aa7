/// When a worker passes the gate: before it appends to a log, after it appended, after it read.
#[derive(Clone, Copy, Debug, PartialEq, Eq)]
pub enum Moment {
    BeforeAppend,
    AfterAppend,
    AfterRead,
}

/// What each worker passes at three moments of its turns, so that a test can hold it back.
///
/// Workers count from 1. The log of a size is `2 * size` for the system's side, and
/// `2 * size + 1` for the environment's. The call promises nothing.
pub trait Gate {
    fn pass(&self, worker: u32, log: u32, moment: Moment);
}

/// A gate that holds nobody back.
#[derive(Clone, Copy, Debug, PartialEq, Eq)]
pub struct OpenGate;

impl Gate for OpenGate {
    fn pass(&self, _worker: u32, _log: u32, _moment: Moment) {}
}
