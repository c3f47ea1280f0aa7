//! The logs of a document of any version.

use crate::shown::Shown;
use letters_and_lassos::Side;
use refutation_log::Entry;
use solved_text::Letters;

/// A log of a document.
#[derive(Clone, Copy)]
pub struct ShownLog<'a> {
    pub side: Side,
    pub size: u32,
    /// The letters over which its base clauses are, where the document says so.
    pub letters: Option<&'a Letters>,
    pub vars: u32,
    pub base: u64,
    pub entries: &'a [Entry],
    /// The line of its head.
    pub line: u64,
}

impl Shown {
    /// How many logs there are.
    pub fn log_count(&self) -> usize {
        match self {
            Shown::Document(document) => document.logs.len(),
            Shown::Solved(document) => document.logs.len(),
            Shown::Circuit(_) => 0,
        }
    }

    /// The log at a place.
    pub fn log(&self, place: usize) -> Option<ShownLog<'_>> {
        match self {
            Shown::Document(document) => {
                let log = document.logs.get(place)?;
                Some(ShownLog {
                    side: log.side,
                    size: log.size,
                    letters: None,
                    vars: log.vars,
                    base: log.base,
                    entries: &log.entries,
                    line: log.line,
                })
            }
            Shown::Solved(document) => {
                let log = document.logs.get(place)?;
                Some(ShownLog {
                    side: document.side()?,
                    size: log.size,
                    letters: Some(&log.letters),
                    vars: log.vars,
                    base: log.base,
                    entries: &log.entries,
                    line: log.line,
                })
            }
            Shown::Circuit(_) => None,
        }
    }

    /// The most entries that a log may have, where the document says so.
    pub fn most_entries(&self) -> Option<u64> {
        match self {
            Shown::Document(document) => document.entries,
            Shown::Solved(_) | Shown::Circuit(_) => None,
        }
    }
}
