ghost use Rattle.std.specs.Prelude.{◌≡◌, ℕ, ◌≤◌, false, Bool, List, IfOk, IsOk, IsErrOf, length};
ghost use Rattle.propositional_logic.specs.Truth.{meets};
ghost use Rattle.refutation_log.specs.Log.{IsLegal, IsClosed, is_ended as is_ended_log};
ghost use Rattle.log_checker.specs.declared.faults.LogFault.{LogFault as Fault};
ghost use Rattle.log_checker.specs.Faults.{entry_fault, follow_fault, IsFirstOf};
ghost use Rattle.log_checker.specs.Causes.{IsOpenFault, IsClosedFault};
ghost use Rattle.log_checker.specs.Hinted.{IsCheckable};

use crate::LogFault;
use crate::hints::first_follow_fault;
use crate::places::first_place_fault;
use crate::split::first_follow_fault_split;
use propositional_logic::Cnf;
use refutation_log::Entry;
use std::alloc::{AllocError, Global};
use std::thread::Threads;

/// Checks that a log is legal over the base clauses and ends with the empty clause. A refusal names the first entry that breaks a
/// rule, and the first rule that it breaks; NotClosed comes last.
///
/// Costs the literals of the clauses that the hints name, the hashing of each clause, and a table over the variables.
pub fn check_log(
    alloc: Global,
    base: &Cnf,
    limit: Option<u64>,
    entries: &[Entry],
) -> Result<(), LogFault>
    requires { IsCheckable base.now.vars base.now.clauses.items entries.now }
    ensures ok { IsOk result → IsClosed base.now.vars base.now.clauses.items limit entries.now }
    ensures fault { (fault : Fault) → IsErrOf result fault → IsClosedFault base.now.vars base.now.clauses.items limit entries.now fault }

    // So no assignment meets the base clauses.
    ensures refutes { IsOk result → (values : List Bool) → meets values base.now.clauses.items ≡ false }
{
    check_open(alloc, base, limit, entries)?;
    if is_ended(entries) {
        Ok(())
    } else {
        Err(LogFault::NotClosed)
    }
}

/// Checks that a log is legal over the base clauses, as `check_log` does, whether or not it ends with the empty clause.
pub fn check_open(
    alloc: Global,
    base: &Cnf,
    limit: Option<u64>,
    entries: &[Entry],
) -> Result<(), LogFault>
    requires { IsCheckable base.now.vars base.now.clauses.items entries.now }
    ensures ok { IsOk result → IsLegal base.now.vars base.now.clauses.items limit entries.now }
    ensures fault { (fault : Fault) → IsErrOf result fault → IsOpenFault base.now.vars base.now.clauses.items limit entries.now fault }
{
    match first_fault(alloc, base, limit, entries)? {
        Some(fault) => Err(fault),
        None => Ok(()),
    }
}

/// The first fault of a log.
fn first_fault(
    alloc: Global,
    base: &Cnf,
    limit: Option<u64>,
    entries: &[Entry],
) -> Result<Option<LogFault>, AllocError>
    requires { IsCheckable base.now.vars base.now.clauses.items entries.now }
    ensures { IfOk result (IsFirstOf (entry_fault base.now.clauses.items limit) entries.now 0 (length entries.now)) }
{
    let (to, fault) = first_place_fault(alloc, limit, entries)?;
    let hinted = first_follow_fault(alloc, base, entries, 0, to)?;
    Ok(hinted.or(fault))
}

/// The same as `check_log`, the hints being tested in pieces on several threads. Each piece has a table over the variables.
pub fn check_log_split<R: Threads + Sync>(
    rt: &R,
    alloc: Global,
    base: &Cnf,
    limit: Option<u64>,
    entries: &[Entry],
) -> Result<(), LogFault>
    requires { IsCheckable base.now.vars base.now.clauses.items entries.now }
    ensures ok { IsOk result → IsClosed base.now.vars base.now.clauses.items limit entries.now }
    ensures fault { (fault : Fault) → IsErrOf result fault → IsClosedFault base.now.vars base.now.clauses.items limit entries.now fault }

    // So no assignment meets the base clauses.
    ensures refutes { IsOk result → (values : List Bool) → meets values base.now.clauses.items ≡ false }
{
    check_open_split(rt, alloc, base, limit, entries)?;
    if is_ended(entries) {
        Ok(())
    } else {
        Err(LogFault::NotClosed)
    }
}

/// The same as `check_open`, the hints being tested in pieces on several threads. Each piece has a table over the variables.
pub fn check_open_split<R: Threads + Sync>(
    rt: &R,
    alloc: Global,
    base: &Cnf,
    limit: Option<u64>,
    entries: &[Entry],
) -> Result<(), LogFault>
    requires { IsCheckable base.now.vars base.now.clauses.items entries.now }
    ensures ok { IsOk result → IsLegal base.now.vars base.now.clauses.items limit entries.now }
    ensures fault { (fault : Fault) → IsErrOf result fault → IsOpenFault base.now.vars base.now.clauses.items limit entries.now fault }
{
    match first_fault_split(rt, alloc, base, limit, entries)? {
        Some(fault) => Err(fault),
        None => Ok(()),
    }
}

/// The first fault of a log, with the hints tested in pieces.
fn first_fault_split<R: Threads + Sync>(
    rt: &R,
    alloc: Global,
    base: &Cnf,
    limit: Option<u64>,
    entries: &[Entry],
) -> Result<Option<LogFault>, AllocError>
    requires { IsCheckable base.now.vars base.now.clauses.items entries.now }
    ensures { IfOk result (IsFirstOf (entry_fault base.now.clauses.items limit) entries.now 0 (length entries.now)) }
{
    let (to, fault) = first_place_fault(alloc, limit, entries)?;
    let hinted = first_follow_fault_split(rt, alloc, base, entries, to)?;
    Ok(hinted.or(fault))
}

/// Whether the last entry is the empty clause.
fn is_ended(entries: &[Entry]) -> bool
    ensures { result ≡ is_ended_log entries.now }
{
    match entries.last() {
        Some(entry) => entry.clause.lits().is_empty(),
        None => false,
    }
}
