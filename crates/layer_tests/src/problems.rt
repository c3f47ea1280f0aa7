//! Problems of few signals, and what is asked of a problem.
ghost use Rattle.std.specs.Prelude.{◌≡◌, ◌^◌, ◌<◌, ◌≤◌, All, IfSome, length};
ghost use Rattle.std.specs.Bool.{OnFalse};
ghost use Rattle.machine_model.specs.Problem.{IsProblem};

use letters_and_lassos::{Cube, Kind, Side};
use machine_model::{Automaton, Counting, Edge, Machine, Problem};
use std::sync::Arc;
use std::test::Fail;

pub(crate) const ANY: Cube = Cube { must: 0, not: 0 };

/// Signal 0 is r and signal 1 is g.
pub(crate) const R: Cube = Cube { must: 1, not: 0 };

pub(crate) const NOT_R: Cube = Cube { must: 0, not: 1 };

pub(crate) const G: Cube = Cube { must: 2, not: 0 };

pub(crate) const NOT_G: Cube = Cube { must: 0, not: 2 };

pub(crate) const R_NOT_G: Cube = Cube { must: 1, not: 2 };

pub(crate) const G_NOT_R: Cube = Cube { must: 2, not: 1 };

pub(crate) fn edge(from: u32, cube: Cube, to: u32) -> Edge {
    Edge { from, cube, to }
}

fn has_far_must(edges: &[Edge], letters: u64) -> bool
    ensures { OnFalse result (All (λ e. e.cube.must < letters) edges.now) }
{
    edges.iter().any(|edge| edge.cube.must >= letters)
}

fn has_far_not(edges: &[Edge], letters: u64) -> bool
    ensures { OnFalse result (All (λ e. e.cube.not < letters) edges.now) }
{
    edges.iter().any(|edge| edge.cube.not >= letters)
}

fn letters_of(signals: u32) -> u64
    requires { signals ≤ 16 }
    ensures { result ≡ 2 ^ signals }
{
    1 << signals
}

/// The problem, if it is within the limits.
pub(crate) fn checked(problem: Problem) -> Option<Problem>
    ensures { IfSome result IsProblem }
{
    if problem.inputs > 8 || problem.outputs > 8 {
        return None;
    }
    if problem.size == 0 || problem.size > 8 || problem.counting.is_local() {
        return None;
    }
    if problem.automaton.states() > 2000 {
        return None;
    }
    let letters = letters_of(problem.inputs + problem.outputs);
    if has_far_must(problem.automaton.edges(), letters) {
        return None;
    }
    if has_far_not(problem.automaton.edges(), letters) {
        return None;
    }
    Some(problem)
}

/// The system's problem for the specification G ((r -> X g) && (!r -> X !g)).
pub(crate) fn delay(rt: &HostRuntime, size: u32, numbered: bool) -> Result<Problem, Fail> {
    let edges = [
        edge(0, R, 1),
        edge(0, NOT_R, 2),
        edge(0, ANY, 0),
        edge(1, NOT_G, 3),
        edge(2, G, 3),
        edge(3, ANY, 3),
    ];
    let rejecting = [false, true, true, true];
    Ok(Problem {
        automaton: automaton(rt, &edges, &rejecting)?,
        inputs: 1,
        outputs: 1,
        side: Side::System,
        kind: Kind::Mealy,
        size,
        counting: Counting::AllRejecting { numbered },
    })
}

pub(crate) fn automaton(
    rt: &HostRuntime,
    edges: &[Edge],
    rejecting: &[bool],
) -> Result<Arc<Automaton>, Fail>
    requires { length rejecting.now < 9 }
{
    let edges = Vec::from_slice(rt.alloc(), edges)?;
    let automaton = Automaton::new(edges, Vec::from_slice(rt.alloc(), rejecting)?)?;
    Ok(Arc::new(rt.alloc(), automaton)?)
}

/// The system's problem for the specification G (g <-> r), of size 1.
pub(crate) fn wire(rt: &HostRuntime) -> Result<Problem, Fail> {
    let edges = [
        edge(0, G_NOT_R, 1),
        edge(0, R_NOT_G, 1),
        edge(0, ANY, 0),
        edge(1, ANY, 1),
    ];
    let rejecting = [false, true];
    Ok(Problem {
        automaton: automaton(rt, &edges, &rejecting)?,
        inputs: 1,
        outputs: 1,
        side: Side::System,
        kind: Kind::Mealy,
        size: 1,
        counting: Counting::AllRejecting { numbered: false },
    })
}

/// What a machine does in each state on each letter: a digit for the next state and one for what it writes.
pub(crate) fn rows_of(rt: &HostRuntime, machine: &Machine) -> Result<Vec<u8>, Fail> {
    let mut digits = Vec::new(rt.alloc());
    for t in 0..machine.size() {
        for letter in 0..letter_count(machine) {
            digits.push(digit(machine.next(t, letter)))?;
            digits.push(digit(machine.writes_at(t, letter)))?;
        }
    }
    Ok(digits)
}

pub(crate) fn digit(number: u32) -> u8 {
    b'0' + (number % 10) as u8
}

pub(crate) fn letter_count(machine: &Machine) -> u32
    ensures { result ≡ 2 ^ machine.now.reads }
{
    1 << machine.reads()
}
