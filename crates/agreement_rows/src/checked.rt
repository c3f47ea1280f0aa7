//! Problems within the limits, and their machines.
ghost use Rattle.std.specs.Prelude.{◌≡◌, ◌^◌, ◌<◌, ◌≤◌, All, IfSome};
ghost use Rattle.std.specs.Bool.{OnFalse};
ghost use Rattle.machine_model.specs.Problem.{IsMachineOf, IsProblem};

use letters_and_lassos::Kind;
use machine_model::{Edge, Machine, Problem};

fn has_far_must(edges: &[Edge], letters: u64) -> bool
    ensures { OnFalse result (All (λ e. e.cube.must < letters) edges.now) }
{
    edges.iter().any(|edge| edge.cube.must >= letters)
}

fn has_far_not(edges: &[Edge], letters: u64) -> bool
    ensures { OnFalse result (All (λ e. e.cube.not < letters) edges.now) }
{
    edges.iter().any(|edge| edge.cube.not >= letters)
}

fn letters_of(signals: u32) -> u64
    requires { signals ≤ 16 }
    ensures { result ≡ 2 ^ signals }
{
    1 << signals
}

/// The problem, if it is within the limits.
pub(crate) fn checked(problem: Problem) -> Option<Problem>
    ensures { IfSome result IsProblem }
{
    if problem.inputs > 8 || problem.outputs > 8 {
        return None;
    }
    if problem.size == 0 || problem.size > 8 || problem.counting.is_local() {
        return None;
    }
    if problem.automaton.states() > 2000 {
        return None;
    }
    let letters = letters_of(problem.inputs + problem.outputs);
    if has_far_must(problem.automaton.edges(), letters) {
        return None;
    }
    if has_far_not(problem.automaton.edges(), letters) {
        return None;
    }
    Some(problem)
}

/// The machine, if it is one of the problem.
pub(crate) fn fitting(problem: &Problem, machine: Machine) -> Option<Machine>
    ensures { IfSome result (IsMachineOf problem.now) }
{
    if machine.size() != problem.size {
        return None;
    }
    if machine.reads() != problem.reads() || machine.writes() != problem.writes() {
        return None;
    }
    match (machine.kind(), problem.kind) {
        (Kind::Mealy, Kind::Mealy) => Some(machine),
        (Kind::Moore, Kind::Moore) => Some(machine),
        _ => None,
    }
}
