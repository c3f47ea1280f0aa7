//! What `synth` and `core` tell of a search.

use document_text::Verdict;
use letters_and_lassos::{Kind, Side};
use machine_model::Counts;
use std::alloc::{AllocError, Global};

/// The greatest size that is searched.
const MOST_SIZES: usize = 8;

/// What a document says, and what was searched for it.
#[derive(Clone, Copy, Debug, PartialEq, Eq)]
pub struct Searched {
    pub verdict: Verdict,
    /// The kind of the system's machines.
    pub kind: Kind,
    pub counts: Counts,
    /// The greatest size that was asked for.
    pub max: u32,
    /// The most entries of a log, if there is a limit.
    pub entries: Option<u64>,
    pub logs: LogEnds,
}

/// How a log ended.
#[derive(Clone, Copy, Debug, PartialEq, Eq)]
pub enum LogEnd {
    /// With the empty clause: its size is refuted.
    Closed,
    /// It has as many entries as it may have.
    Full,
}

/// How the logs of both sides ended.
#[derive(Clone, Copy, Debug, PartialEq, Eq)]
pub struct LogEnds {
    pub system: SideLogs,
    pub environment: SideLogs,
}

impl LogEnds {
    /// No logs.
    pub fn new() -> LogEnds {
        LogEnds {
            system: SideLogs::new(),
            environment: SideLogs::new(),
        }
    }

    /// Those of one side.
    pub fn of(&self, side: Side) -> SideLogs {
        match side {
            Side::System => self.system,
            Side::Environment => self.environment,
        }
    }

    /// Notes how the log of a size of a side ended.
    pub fn note(&mut self, side: Side, size: u32, end: LogEnd) {
        match side {
            Side::System => self.system.note(size, end),
            Side::Environment => self.environment.note(size, end),
        }
    }
}

/// How the logs of one side ended.
#[derive(Clone, Copy, Debug, PartialEq, Eq)]
pub struct SideLogs {
    /// By their sizes less one.
    ends: [Option<LogEnd>; MOST_SIZES],
}

impl SideLogs {
    /// No logs.
    pub fn new() -> SideLogs {
        SideLogs {
            ends: [None; MOST_SIZES],
        }
    }

    /// Notes how the log of a size ended.
    fn note(&mut self, size: u32, end: LogEnd) {
        let place = size.saturating_sub(1) as usize;
        if let Some(slot) = self.ends.get_mut(place) {
            *slot = Some(end);
        }
    }

    /// The sizes whose logs ended so.
    pub fn sizes(&self, alloc: Global, end: LogEnd) -> Result<Vec<u64>, AllocError> {
        let mut sizes = Vec::new(alloc);
        for (size, ended) in (1..u64::MAX).zip(&self.ends) {
            if *ended == Some(end) {
                sizes.push(size)?;
            }
        }
        Ok(sizes)
    }
}
