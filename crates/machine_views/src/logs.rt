//! What is told of a log.

use letters_and_lassos::Side;
use machine_table::ShownLog;
use refutation_log::Entry;
use std::alloc::{AllocError, Global};
use std::collections::BTreeMap;

/// How a log ends: by the empty clause, with the most entries without that, or before.
#[derive(Clone, Copy)]
pub(crate) enum Ending {
    Closed,
    Full,
    Open,
}

#[derive(Drop)]
pub(crate) struct LogSummary {
    pub(crate) side: &'static str,
    pub(crate) ending: Ending,
    /// The entries of each worker.
    pub(crate) workers: BTreeMap<u32, u64>,
    /// The literals of the longest clause.
    pub(crate) longest: u64,
}

impl LogSummary {
    pub(crate) fn of(
        alloc: Global,
        log: ShownLog<'_>,
        most: Option<u64>,
    ) -> Result<LogSummary, AllocError> {
        Ok(LogSummary {
            side: side_name(log.side),
            ending: ending_of(log.entries, most),
            workers: entries_by_worker(alloc, log.entries)?,
            longest: longest_clause(log.entries),
        })
    }
}

pub(crate) fn side_name(side: Side) -> &'static str {
    match side {
        Side::System => "system",
        Side::Environment => "environment",
    }
}

/// How a log with these entries ends.
pub(crate) fn ending_of(entries: &[Entry], most: Option<u64>) -> Ending {
    if entries
        .last()
        .is_some_and(|entry| entry.clause.lits().is_empty())
    {
        Ending::Closed
    } else if most == Some(entries.len() as u64) {
        Ending::Full
    } else {
        Ending::Open
    }
}

fn longest_clause(entries: &[Entry]) -> u64 {
    let mut longest = 0;
    for entry in entries {
        longest = entry.clause.lits().len().max(longest);
    }
    longest as u64
}

fn entries_by_worker(alloc: Global, entries: &[Entry]) -> Result<BTreeMap<u32, u64>, AllocError> {
    let mut counts = BTreeMap::new(alloc);
    for entry in entries {
        let count: &mut u64 = counts.entry(entry.by)?.or_insert(0);
        *count = count.saturating_add(1);
    }
    Ok(counts)
}
