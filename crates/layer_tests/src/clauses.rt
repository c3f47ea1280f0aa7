//! The base clauses of a delay, which were worked out by hand from their definition.
ghost use Rattle.std.specs.Prelude.{IfOk};
ghost use Rattle.machine_model.specs.Problem.{IsProblem};

use crate::problems::{checked, delay};
use annotation_encode::{count, encode};
use machine_model::Problem;
use propositional_logic::Clause;
use std::fmt::Write;
use std::test::Fail;

/// The problem of a delay. That of version 3 counts by component.
fn problem(rt: &HostRuntime, size: u32, version: u32) -> Result<Problem, Fail>
    ensures { IfOk result IsProblem }
{
    let problem = checked(delay(rt, size, version >= 2)?).ok_or("a problem within the limits")?;
    if version < 3 {
        return Ok(problem);
    }
    Ok(problem.by_component(rt.alloc())?)
}

/// The number of each literal's variable, negative where it is negated.
fn push_clause(text: &mut String, clause: &Clause) -> Result<(), Fail> {
    for lit in clause.lits() {
        let sign = if lit.is_positive() { "" } else { "-" };
        write!(text, "{sign}{} ", lit.var())?;
    }
    text.push_str("0 ")?;
    Ok(())
}

/// The numbers of variables and of clauses, and the clauses of these numbers, counted from 0.
fn clauses_at(rt: &HostRuntime, problem: &Problem, places: &[usize]) -> Result<String, Fail>
    requires { IsProblem problem.now }
{
    let cnf = encode(rt.alloc(), problem)?;
    let mut text = String::new(rt.alloc());
    write!(text, "{} {:?}: ", cnf.vars, count(problem))?;
    for place in places {
        let clause = cnf.clauses.get(*place).ok_or("a clause")?;
        push_clause(&mut text, clause)?;
    }
    Ok(text)
}

fn said(rt: &HostRuntime, size: u32, version: u32, places: &[usize]) -> Result<String, Fail> {
    let problem = problem(rt, size, version)?;
    clauses_at(rt, &problem, places)
}

#[test]
fn the_clauses_of_a_delay(rt: HostRuntime) -> Result<(), Fail> {
    for (size, version, places, want) in [
        (
            1,
            1,
            [0, 1, 2, 3, 4, 5, 6, 7, 12, 20, 29, 30].as_slice(),
            "20 Some(35): 1 0 2 0 5 0 -2 -5 10 0 -2 -6 11 0 -2 -7 12 0 -2 -8 0 -1 -5 14 0 \
            -1 3 -10 19 0 -1 -3 -14 19 0 -1 -19 20 0 -1 -20 0 ",
        ),
        (3, 1, &[], "144 Some(847): "),
        // The order of states.
        (
            3,
            2,
            &[847, 848, 849],
            "144 Some(853): -3 0 2 -6 0 2 5 -9 0 ",
        ),
        // All of one state that count by component.
        (
            1,
            3,
            &[0, 1, 2, 3, 4, 5, 6, 7, 8, 9, 10, 11, 12, 13],
            "9 Some(14): 1 0 2 0 5 0 -2 -5 6 0 -1 -5 7 0 -1 3 -6 8 0 -2 4 -6 8 0 -1 -3 -7 8 0 -2 -4 -7 8 0 \
            -1 -8 9 0 -1 -9 0 -2 -8 9 0 -2 -9 0 8 -9 0 ",
        ),
        (2, 3, &[], "24 Some(61): "),
        (3, 3, &[], "45 Some(160): "),
    ] {
        assert_eq!(rt; said(&rt, size, version, places)?.as_str(), want);
    }
    Ok(())
}
