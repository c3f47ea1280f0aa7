//! Long logs: checked by both forms, and searched by hashing.
use crate::check_log::{ask, clause};
use log_checker::LogFault;
use propositional_logic::{Clause, Cnf, Lit};
use refutation_log::{Entry, Hints, LogState, Reply, SharedClause, Turn};
use std::alloc::Global;
use std::test::Fail;

/// The variables of the chain.
const CHAIN: u32 = 3000;

/// The base clauses `1`, `-1 2`, `-2 3` and so on, and the opposite of the last variable.
fn chain(alloc: Global) -> Result<Cnf, Fail> {
    let mut clauses = Vec::new(alloc);
    clauses.push(clause(alloc, &[1])?)?;
    for var in 1..CHAIN as i32 {
        clauses.push(clause(alloc, &[var.wrapping_neg(), var + 1])?)?;
    }
    clauses.push(clause(alloc, &[-(CHAIN as i32)])?)?;
    Ok(Cnf {
        vars: CHAIN,
        clauses,
    })
}

/// The hints of the entry at this place of a log over the chain. Those of a damaged one don't lead to a falsified clause.
fn hints_at(place: u32, damaged: &[u32]) -> [u64; 2] {
    let place_before = u64::from(CHAIN) + 1 + u64::from(place);
    if damaged.contains(&place) {
        [1, 1]
    } else if place == 0 {
        [1, 2]
    } else {
        [place_before, u64::from(place) + 2]
    }
}

fn entry(alloc: Global, lits: &[i32], hints: &[u64]) -> Result<Entry, Fail> {
    Ok(Entry {
        by: 1,
        clause: SharedClause::new(alloc, clause(alloc, lits)?)?,
        hints: Hints::new(alloc, hints)?,
    })
}

/// A closed log over the chain: each variable by the one before it, and then the empty clause.
fn chain_log(alloc: Global, damaged: &[u32]) -> Result<Vec<Entry>, Fail> {
    let mut log = Vec::new(alloc);
    for place in 0..CHAIN - 1 {
        let hints = hints_at(place, damaged);
        log.push(entry(alloc, &[place as i32 + 2], &hints)?)?;
    }
    log.push(entry(alloc, &[], &hints_at(CHAIN - 1, damaged))?)?;
    Ok(log)
}

#[test]
fn both_forms_check_three_thousand_entries(rt: HostRuntime) -> Result<(), Fail> {
    let base = chain(rt.alloc())?;
    for (damaged, want) in [
        ([].as_slice(), None),
        (&[2500], Some(LogFault::NotFalsified(2500))),
        (&[2500, 700], Some(LogFault::NotFalsified(700))),
    ] {
        let log = chain_log(rt.alloc(), damaged)?;
        assert_eq!(rt; ask(&rt, rt.alloc(), &base, Some(3000), &log), want);
    }
    Ok(())
}

/// Offers so many different clauses, one after the other, and tells how many were taken.
fn fill(log: &mut LogState, alloc: Global, count: u32) -> Result<u32, Fail> {
    let mut taken = 0u32;
    for i in 0..count {
        let lits = [
            Lit::new(1 + i / 500 % 500, true),
            Lit::new(501 + i % 500, false),
        ];
        let clause = SharedClause::new(alloc, Clause::new(alloc, 1000, &lits)?)?;
        let hints = Hints::new(alloc, &[1])?;
        log.reserve()?;
        if let Reply::At(_) = log.turn(Turn::Append(Entry {
            by: 1,
            clause,
            hints,
        })) {
            taken = taken.wrapping_add(1);
        }
    }
    Ok(taken)
}

/// A log that searched its entries one by one would take minutes.
#[test]
fn a_long_log_is_searched_by_hashing(rt: HostRuntime) -> Result<(), Fail> {
    let mut log = LogState::new(rt.alloc(), Some(250_000));
    assert_eq!(rt; fill(&mut log, rt.alloc(), 250_000)?, 250_000);
    assert_eq!(rt; fill(&mut log, rt.alloc(), 1000)?, 0);
    Ok(())
}
