//! What is tested of a document's logs.
ghost use Rattle.std.specs.Prelude.{◌≡◌, ◌+◌, ◌<◌, ◌≤◌, ◌^◌, All, IfOk, IfSome, None, length, option_map};
ghost use Rattle.refutation_log.specs.Log.{is_ended};
ghost use Rattle.refutation_log.specs.Turn.{is_at_limit};
ghost use Rattle.machine_model.specs.Problem.{IsProblem};
ghost use Rattle.log_checker.specs.declared.faults.LogFault.TheVariants.{NoMemory, NotClosed};
ghost use Rattle.document_check.specs.FirstBad.{LogFails, LogsFail, entry_of as entry_named, has_numbers as has_its_numbers, is_size_of as is_size_of_log, suffices as is_enough};
ghost use Rattle.document_check.specs.Holds.{first_open as first_open_log, may_be_full as full_allowed, names_open as open_named};
ghost use Rattle.document_check.specs.Shown.{AreFactsFor, facts_of, IsReadable, IsSize, line_of_first, uncons};

use crate::facts::TextFacts;
use annotation_encode::{count, encode, variables};
use document_text::{LogPart, Place, Verdict};
use letters_and_lassos::Kind;
use log_checker::{LogFault, check_open_split};
use machine_model::Problem;
use refutation_log::Entry;
use std::alloc::{AllocError, Global};
use std::thread::Threads;

/// What is wanted of a document's logs.
#[derive(Clone, Copy)]
pub struct Wanted {
    pub kind: Kind,
    pub version: u32,
    /// Whether a log may be full where it isn't closed.
    pub full: bool,
    /// The limit on a log's entries.
    pub limit: Option<u64>,
    /// The line in which a log is missing where no further one stands.
    pub end: u64,
}

/// The first line at which logs fail, of which these sizes are wanted.
pub fn logs_line<R: Threads + Sync>(
    rt: &R,
    alloc: Global,
    facts: TextFacts<'_>,
    wanted: Wanted,
    sizes: &[Place],
    logs: &[LogPart],
) -> Result<Option<u64>, AllocError>
    requires facts { AreFactsFor wanted.version (facts_of facts) }
    requires sizes { All IsSize sizes.now }
    requires logs { All IsReadable logs.now }
    ensures { IfOk result (LogsFail (facts_of facts.entry) wanted.kind wanted.version wanted.full wanted.limit wanted.end sizes.now logs.now) }
{
    let Some((size, later)) = first_size(sizes) else {
        return Ok(first_line(logs));
    };
    let Some((log, others)) = first_log(logs) else {
        return Ok(Some(wanted.end));
    };
    if !is_size_of(size, log) {
        return Ok(Some(log.line));
    }
    let Some(problem) = facts.problem_at(wanted.kind, wanted.version, log.side, log.size)? else {
        return Ok(Some(log.line));
    };
    if let Some(line) = log_line(rt, alloc, wanted.full, wanted.limit, log, &problem)? {
        return Ok(Some(line));
    }
    let line = logs_line(rt, alloc, facts, wanted, later, others)?;
    Ok(line)
}

/// The first size, and those behind it.
fn first_size(sizes: &[Place]) -> Option<(Place, &[Place])>
    ensures { option_map (λ p. (p.0, p.1.now)) result ≡ uncons sizes.now }
{
    match sizes {
        [first, others @ ..] => Some((*first, others)),
        [] => None,
    }
}

/// The first log, and those behind it.
fn first_log(logs: &[LogPart]) -> Option<(&LogPart, &[LogPart])>
    ensures { option_map (λ p. (p.0.now, p.1.now)) result ≡ uncons logs.now }
{
    match logs {
        [first, others @ ..] => Some((first, others)),
        [] => None,
    }
}

/// The line of the first log.
fn first_line(logs: &[LogPart]) -> Option<u64>
    ensures { result ≡ line_of_first logs.now }
{
    match logs {
        [first, ..] => Some(first.line),
        [] => None,
    }
}

fn is_size_of(size: Place, log: &LogPart) -> bool
    ensures { result ≡ is_size_of_log size log.now }
{
    size.side == log.side && size.size == log.size
}

/// The line at which a log fails over a problem.
fn log_line<R: Threads + Sync>(
    rt: &R,
    alloc: Global,
    full: bool,
    limit: Option<u64>,
    log: &LogPart,
    problem: &Problem,
) -> Result<Option<u64>, AllocError>
    requires problem { IsProblem problem.now }
    requires log { IsReadable log.now }
    ensures { IfOk result (LogFails full limit log.now problem.now) }
{
    if !has_numbers(log, problem) {
        return Ok(Some(log.line));
    }
    let base = encode(alloc, problem)?;
    match check_open_split(rt, alloc, &base, limit, &log.entries) {
        Ok(()) => {}
        Err(fault) => {
            let Some(entry) = entry_of(fault) else {
                return Err(AllocError);
            };
            return Ok(Some(log.line + 1 + entry));
        }
    }
    if suffices(full, limit, &log.entries) {
        Ok(None)
    } else {
        Ok(Some(log.line + 1 + log.entries.len() as u64))
    }
}

fn has_numbers(log: &LogPart, problem: &Problem) -> bool
    requires { IsProblem problem.now }
    ensures { result ≡ has_its_numbers log.now problem.now }
{
    if variables(problem) != log.vars {
        return false;
    }
    match count(problem) {
        Some(base) => log.base == base,
        None => false,
    }
}

/// Whether a legal log is closed, or has as many entries as the limit where that suffices.
fn suffices(full: bool, limit: Option<u64>, entries: &[Entry]) -> bool
    ensures { result ≡ is_enough full limit entries.now }
{
    is_ended(entries) || (full && is_at_limit(limit, entries))
}

fn is_ended(entries: &[Entry]) -> bool
    ensures { result ≡ is_ended entries.now }
{
    match entries.last() {
        Some(entry) => entry.clause.lits().is_empty(),
        None => false,
    }
}

fn is_at_limit(limit: Option<u64>, entries: &[Entry]) -> bool
    ensures { result ≡ is_at_limit limit entries.now }
{
    match limit {
        Some(most) => most <= entries.len() as u64,
        None => false,
    }
}

/// The entry that a fault names, but for want of memory.
fn entry_of(fault: LogFault) -> Option<u64>
    ensures entry { IfSome result (λ entry. entry ≡ entry_named fault) }
    ensures no_memory { fault ≡ NoMemory → result ≡ None }
    ensures not_closed { fault ≡ NotClosed → result ≡ None }
{
    match fault {
        LogFault::BadHint(entry) => Some(entry as u64),
        LogFault::NotFalsified(entry) => Some(entry as u64),
        LogFault::Repeated(entry) => Some(entry as u64),
        LogFault::AfterEnd(entry) => Some(entry as u64),
        LogFault::OverLimit(entry) => Some(entry as u64),
        LogFault::NotClosed => None,
        LogFault::NoMemory => None,
    }
}

/// Whether the verdict is what is said of its machine, or of none, beside these logs.
pub fn names_open(verdict: Verdict, logs: &[LogPart]) -> bool
    ensures { result ≡ open_named verdict (first_open_log logs.now) }
{
    verdict == Verdict::of(verdict.machine(), first_open(logs))
}

/// The side and the size of the first log that isn't closed.
pub fn first_open(logs: &[LogPart]) -> Option<Place>
    ensures { result ≡ first_open_log logs.now }
{
    for log in logs {
        if !is_ended(&log.entries) {
            return Some(Place {
                side: log.side,
                size: log.size,
            });
        }
    }
    None
}

/// Whether the logs of a verdict may be full where they aren't closed.
pub fn may_be_full(verdict: Verdict) -> bool
    ensures { result ≡ full_allowed verdict }
{
    match verdict {
        Verdict::Machine { least, .. } => !least,
        Verdict::Unknown(first) => first.is_some(),
    }
}
