//! The line at which a log fails.
ghost use Rattle.std.specs.Prelude.{◌≡◌, ◌+◌, ◌<◌, ◌^◌, true, IfOk, IfSome, None, length};
ghost use Rattle.std.specs.List.{range_with_len};
ghost use Rattle.machine_model.specs.Problem.{reads_of};
ghost use Rattle.refutation_log.specs.Log.{is_ended as is_ended_log};
ghost use Rattle.log_checker.specs.declared.faults.LogFault.TheVariants.{NoMemory, NotClosed};
ghost use Rattle.letter_clauses.specs.Letters.{IsLetterProblem};
ghost use Rattle.solved_text.specs.declared.letters.Letters.TheVariants.{Few};
ghost use Rattle.size_refutations.specs.FirstBad.{FailsOver, LogFails};
ghost use Rattle.size_refutations.specs.Heads.{is_number_of_states as is_states};
ghost use Rattle.size_refutations.specs.Parts.{IsReadLog, IsSearchOf, IsSizedAs, NamesEntry, entry_named, ground_of, line_behind};

use crate::grounds::Sought;
use crate::heads::{all_letters, are_few, has_numbers, is_number_of_states};
use letter_clauses::LetterSize;
use log_checker::{LogFault, check_open};
use machine_model::Problem;
use refutation_log::Entry;
use solved_text::{Letters, SizeLog};
use std::alloc::{AllocError, Global};

/// The line at which a log fails for a side that has an automaton.
pub(crate) fn searched_line(
    alloc: Global,
    sought: Sought<'_>,
    search: &Problem,
    log: &SizeLog,
) -> Result<Option<u64>, AllocError>
    requires search { IsSearchOf (ground_of sought) search.now }
    requires log { IsReadLog log.now }
    ensures { IfOk result (LogFails (ground_of sought.entry) log.now) }
{
    let problem = search.sized(log.size)?;
    sized_line(alloc, sought, search, &problem, log)
}

/// The same over the problem of the log's size.
fn sized_line(
    alloc: Global,
    sought: Sought<'_>,
    search: &Problem,
    problem: &Problem,
    log: &SizeLog,
) -> Result<Option<u64>, AllocError>
    requires search { IsSearchOf (ground_of sought) search.now }
    requires sized { IsSizedAs search.now log.now.size problem.now }
    requires log { IsReadLog log.now }
    ensures { IfOk result (LogFails (ground_of sought.entry) log.now) }
{
    if !is_number_of_states(log.size) {
        return Ok(Some(log.line));
    }
    match &log.letters {
        Letters::All => line_over_all(alloc, sought, search, problem, log),
        Letters::Few(list) => line_over_few(alloc, sought, search, problem, list.numbers(), log),
    }
}

/// The line at which a log fails that is over all letters.
fn line_over_all(
    alloc: Global,
    sought: Sought<'_>,
    search: &Problem,
    problem: &Problem,
    log: &SizeLog,
) -> Result<Option<u64>, AllocError>
    requires search { IsSearchOf (ground_of sought) search.now }
    requires sized { IsSizedAs search.now log.now.size problem.now }
    requires states { is_states log.now.size ≡ true }
    requires log { IsReadLog log.now }
    ensures { IfOk result (FailsOver problem.now (range_with_len 0 (2 ^ reads_of problem.now)) log.now) }
{
    let letters = all_letters(alloc, problem.reads())?;
    let size = LetterSize {
        problem,
        letters: &letters,
    };
    line_over(alloc, size, log)
}

/// The line at which a log fails whose head names these letters.
fn line_over_few(
    alloc: Global,
    sought: Sought<'_>,
    search: &Problem,
    problem: &Problem,
    letters: &[u32],
    log: &SizeLog,
) -> Result<Option<u64>, AllocError>
    requires search { IsSearchOf (ground_of sought) search.now }
    requires sized { IsSizedAs search.now log.now.size problem.now }
    requires states { is_states log.now.size ≡ true }
    requires letters { log.now.letters ≡ Few letters.now }
    requires log { IsReadLog log.now }
    ensures { IfOk result (LogFails (ground_of sought.entry) log.now) }
{
    if !are_few(problem.reads(), letters) {
        return Ok(Some(log.line));
    }
    let size = LetterSize { problem, letters };
    line_over(alloc, size, log)
}

/// The line at which a log fails over a problem and letters.
fn line_over(alloc: Global, size: LetterSize<'_>, log: &SizeLog) -> Result<Option<u64>, AllocError>
    requires size { IsLetterProblem size.problem.now size.letters.now }
    requires log { IsReadLog log.now }
    ensures { IfOk result (FailsOver size.entry.problem.now size.entry.letters.now log.now) }
{
    if !has_numbers(size, log) {
        return Ok(Some(log.line));
    }
    let base = size.encode(alloc)?;
    match check_open(alloc, &base, None, &log.entries) {
        Ok(()) => Ok(end_line(log)),
        Err(fault) => fault_line(log, fault),
    }
}

/// The line behind the last entry, where that isn't the empty clause.
fn end_line(log: &SizeLog) -> Option<u64>
    requires { log.now.line + 1 + length log.now.entries < 2 ^ 64 }
    ensures { result ≡ line_behind log.now }
{
    if is_ended(&log.entries) {
        None
    } else {
        Some(log.line + 1 + log.entries.len() as u64)
    }
}

/// The line of the entry that a fault names, but for want of memory.
fn fault_line(log: &SizeLog, fault: LogFault) -> Result<Option<u64>, AllocError>
    requires lines { log.now.line + 1 + length log.now.entries < 2 ^ 64 }
    requires within { (fault ≡ NoMemory → ⊥) → entry_named fault < length log.now.entries }
    ensures { IfOk result (NamesEntry log.now fault) }
{
    let Some(place) = place_of(fault) else {
        return Err(AllocError);
    };
    Ok(Some(log.line + 1 + place))
}

/// Whether the last entry is the empty clause.
fn is_ended(entries: &[Entry]) -> bool
    ensures { result ≡ is_ended_log entries.now }
{
    match entries.last() {
        Some(entry) => entry.clause.lits().is_empty(),
        None => false,
    }
}

/// The place of the entry that a fault names, but for want of memory.
fn place_of(fault: LogFault) -> Option<u64>
    ensures entry { IfSome result (λ place. place ≡ entry_named fault) }
    ensures no_memory { fault ≡ NoMemory → result ≡ None }
    ensures not_closed { fault ≡ NotClosed → result ≡ None }
{
    match fault {
        LogFault::BadHint(entry) => Some(entry as u64),
        LogFault::NotFalsified(entry) => Some(entry as u64),
        LogFault::Repeated(entry) => Some(entry as u64),
        LogFault::AfterEnd(entry) => Some(entry as u64),
        LogFault::OverLimit(entry) => Some(entry as u64),
        LogFault::NotClosed => None,
        LogFault::NoMemory => None,
    }
}
