//! What the checker says of logs, by both of its forms.
ghost use Rattle.std.specs.Prelude.{All};
ghost use Rattle.std.specs.Bool.{OnTrue};
ghost use Rattle.propositional_logic.specs.Clause.{IsWithinVariables};
ghost use Rattle.log_checker.specs.Hinted.{AreWithin};

use log_checker::{LogFault, check_log, check_log_split, check_open, check_open_split};
use propositional_logic::{Clause, Cnf, Lit};
use refutation_log::{Entry, read_log};
use std::alloc::Global;
use std::fmt::Write;
use std::process::Abort;
use std::test::Fail;
use std::thread::Threads;

/// A clause with these literals, `-v` for not v.
pub(crate) fn clause(alloc: Global, lits: &[i32]) -> Result<Clause, Fail> {
    let mut given = Vec::new(alloc);
    for lit in lits {
        given.push(Lit::new(lit.unsigned_abs().clamp(1, 1 << 30), *lit > 0))?;
    }
    Ok(Clause::new(alloc, 1 << 30, &given)?)
}

/// The base clauses over two variables.
fn all_four(alloc: Global) -> Result<Cnf, Fail> {
    let mut clauses = Vec::new(alloc);
    for lits in [[1, 2], [1, -2], [-1, 2], [-1, -2]] {
        clauses.push(clause(alloc, &lits)?)?;
    }
    Ok(Cnf { vars: 2, clauses })
}

fn is_within(vars: u32, clause: &Clause) -> bool
    ensures { OnTrue result (IsWithinVariables vars clause.now) }
{
    clause.lits().iter().all(|lit| lit.var() <= vars)
}

fn are_clauses_within(vars: u32, clauses: &[Clause]) -> bool
    ensures { OnTrue result (All (IsWithinVariables vars) clauses.now) }
{
    clauses.iter().all(|clause| is_within(vars, clause))
}

fn are_within(vars: u32, entries: &[Entry]) -> bool
    ensures { OnTrue result (AreWithin vars entries.now) }
{
    entries
        .iter()
        .all(|entry| is_within(vars, entry.clause.as_clause()))
}

/// What all four calls answer, which must be the same but for a log that isn't closed.
pub(crate) fn ask<R: Abort + Threads + Sync>(
    rt: &R,
    alloc: Global,
    base: &Cnf,
    limit: Option<u64>,
    entries: &[Entry],
) -> Option<LogFault> {
    assert!(rt; base.vars <= 1 << 30);
    assert!(rt; are_clauses_within(base.vars, &base.clauses));
    assert!(rt; are_within(base.vars, entries));
    let answer = check_log(alloc, base, limit, entries).err();
    let open = answer.filter(|fault| *fault != LogFault::NotClosed);
    assert_eq!(rt;
        check_log_split(rt, alloc, base, limit, entries).err(),
        answer
    );
    assert_eq!(rt; check_open(alloc, base, limit, entries).err(), open);
    assert_eq!(rt;
        check_open_split(rt, alloc, base, limit, entries).err(),
        open
    );
    answer
}

/// What is said of the log of these lines.
fn fault_of<R: Abort + Threads + Sync>(
    rt: &R,
    alloc: Global,
    base: &Cnf,
    limit: Option<u64>,
    lines: &[u8],
) -> Result<Option<LogFault>, Fail> {
    let count = lines.iter().filter(|byte| **byte == b'\n').count();
    let log = read_log(alloc, lines, 2, count as u64)?;
    Ok(ask(rt, alloc, base, limit, &log.entries))
}

/// What is said of each log of a text over the base clauses over two variables; `=` stands between two logs.
fn said<R: Abort + Threads + Sync>(
    rt: &R,
    alloc: Global,
    limit: Option<u64>,
    logs: &[u8],
) -> Result<String, Fail> {
    let base = all_four(alloc)?;
    let mut said = String::new(alloc);
    for lines in logs.split(|byte| *byte == b'=') {
        let fault = fault_of(rt, alloc, &base, limit, lines)?;
        write!(said, "{fault:?} ")?;
    }
    Ok(said)
}

/// A refutation, a hint that isn't unit, one that is falsified early, one that names no clause, the last that isn't falsified, and none.
const HINTS: &[u8] = b"1 1 0 1 2 0\n1 0 5 3 4 0\n=\
    1 0 1 2 0\n=1 1 2 0 1 1 0\n=1 2 0 5 0\n=1 1 0 1 0\n=1 1 0 0\n";

/// No entry, marks that would have been left, an entry that stands twice, one behind the end, and the first of two faults.
const PLACES: &[u8] = b"=1 1 0 1 2 0\n1 2 0 1 0\n=1 1 0 1 2 0\n1 1 0 9 0\n=\
    1 1 0 1 2 0\n1 0 5 3 4 0\n1 0 5 3 4 0\n=1 1 0 9 0\n1 1 0 1 2 0\n";

/// A log of two entries, and one of three.
const LIMITED: &[u8] = b"1 1 0 1 2 0\n1 0 5 3 4 0\n=1 1 0 1 2 0\n1 0 5 3 4 0\n1 0 5 3 4 0\n";

#[test]
fn names_the_first_fault(rt: HostRuntime) -> Result<(), Fail> {
    for (limit, logs, want) in [
        (
            None,
            HINTS,
            "None Some(BadHint(0)) Some(BadHint(0)) Some(BadHint(0)) Some(NotFalsified(0)) \
            Some(NotFalsified(0)) ",
        ),
        (
            None,
            PLACES,
            "Some(NotClosed) Some(NotFalsified(1)) Some(Repeated(1)) Some(AfterEnd(2)) Some(BadHint(0)) ",
        ),
        (Some(2), LIMITED, "None Some(OverLimit(2)) "),
        (Some(0), LIMITED, "Some(OverLimit(0)) Some(OverLimit(0)) "),
    ] {
        assert_eq!(rt; said(&rt, rt.alloc(), limit, logs)?.as_str(), want);
    }
    Ok(())
}
