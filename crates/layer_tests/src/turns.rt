//! Two workers that take turns on one log.
ghost use Rattle.std.specs.Prelude.{◌≡◌, ◌++◌, List, All, IfOk};
ghost use Rattle.propositional_logic.specs.Clause.{IsFormula, IsWithinVariables};
ghost use Rattle.refutation_log.specs.declared.entries.Entry.{Entry};
ghost use Rattle.clause_solver.specs.Worker.{IsWorkingOn};

use crate::clause_texts::formula;
use clause_solver::laws::work_goes_on;
use clause_solver::{Turned, Worker};
use propositional_logic::Cnf;
use refutation_log::Entry;
use std::alloc::Global;
use std::test::Fail;

/// Where the turns of workers end.
#[derive(Clone, Copy, Debug, PartialEq)]
enum End {
    Model,
    Refuted,
    Open,
}

/// One turn of a worker, its entry appended. Answers where it ends.
fn take_turn(
    alloc: Global,
    base: &Cnf,
    worker: &mut Worker,
    log: &mut Vec<Entry>,
) -> Result<End, Fail>
    requires variables { base.now.vars ≡ worker.old.trail.vars }
    requires formula { IsFormula base.now.vars base.now.clauses.items }
    requires within { All (λ e. IsWithinVariables base.now.vars e.clause) log.old.items }
    requires working { IsWorkingOn base.now.clauses.items log.old.items worker.old }
    ensures within { IfOk result (λ _. All (λ e. IsWithinVariables base.now.vars e.clause) log.new.items) }
    ensures working { IfOk result (λ _. IsWorkingOn base.now.clauses.items log.new.items worker.new) }
    ensures grown { IfOk result (λ _. (more : List Entry) × (log.new.items ≡ log.old.items ++ more)) }
    ensures vars { worker.new.trail.vars ≡ worker.old.trail.vars }
{
    match worker.turn(alloc, base, log)? {
        Turned::Model(_model) => Ok(End::Model),
        Turned::Learnt(entry) => {
            let end = if entry.clause.lits().is_empty() {
                End::Refuted
            } else {
                End::Open
            };
            log.push(entry)?;
            Ok(end)
        }
    }
}

/// The turns of two workers on one log, one after the other, until one of them ends or so many turns.
fn turns(alloc: Global, base: &Cnf, most: usize) -> Result<End, Fail>
    requires formula { IsFormula base.now.vars base.now.clauses.items }
{
    let mut log = Vec::new(alloc);
    let mut next = Worker::new(alloc, 0, base.vars)?;
    let mut other = Worker::new(alloc, 1, base.vars)?;
    work_goes_on();
    for _turn in 0..most {
        match take_turn(alloc, base, &mut next, &mut log)? {
            End::Open => std::mem::swap(&mut next, &mut other),
            end => return Ok(end),
        }
    }
    Ok(End::Open)
}

/// Where the turns on the formula of a text end.
fn end_of(alloc: Global, text: &[u8], most: usize) -> Result<End, Fail> {
    let base = formula(alloc, text)?;
    turns(alloc, &base, most)
}

/// Each of four pigeons sits in one of three holes, and no two of them in one.
const PIGEONS: &[u8] = b"abc def ghi jkl AD AG AJ DG DJ GJ BE BH BK EH EK HK CF CI CL FI FL IL";

/// How many turns are needed no contract says.
#[test]
fn few_turns_end(rt: HostRuntime) -> Result<(), Fail> {
    for (text, most, want) in [
        (b"ab aB Ab AB".as_slice(), 2, End::Refuted),
        (b"ab Ab", 6, End::Model),
        (PIGEONS, 60, End::Refuted),
    ] {
        assert_eq!(rt; end_of(rt.alloc(), text, most)?, want);
    }
    Ok(())
}
