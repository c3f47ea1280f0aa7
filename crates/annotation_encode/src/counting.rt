ghost use Rattle.std.specs.Prelude.{◌≡◌, ◌+◌, ◌-◌, ◌*◌, ◌^◌, ◌≤◌, length, if◌then◌else◌};
ghost use Rattle.text_limits.specs.declared.TheConstants.{SMALL_LIMITS};
ghost use Rattle.machine_model.specs.Automaton.{JoinsStates, states_of};
ghost use Rattle.machine_model.specs.Problem.{IsProblem, automaton_of, reads_of, sized};
ghost use Rattle.annotation_encode.specs.BaseClauses.{edge_clauses, row_count, step_count};
ghost use Rattle.annotation_encode.specs.Count.{allowed_sizes, chain_count, count_of, free_below, is_free, most_clauses, order_count, target_count};

use crate::clauses::read_signal;
use crate::numbering::{Numbering, letter_count};
use letters_and_lassos::{Cube, Letter};
use machine_model::{Edge, Problem};
use product_bound::leaves;

/// The greatest number of base clauses of a problem that is worked on: 1,000,000, and where numbers count by component
/// 4,000,000.
fn most_clauses(problem: &Problem) -> u64
    ensures value { result ≡ most_clauses problem.now }
    ensures small { result ≤ 4000000 }
{
    if problem.counting.is_local() {
        4_000_000
    } else {
        1_000_000
    }
}

/// The number of base clauses, or None where it passes 1,000,000, and where numbers count by component 4,000,000.
///
/// The clauses aren't listed to find it: it takes as many steps as there are edges and read signals, multiplied. It takes
/// no memory.
pub fn count(problem: &Problem) -> Option<u64>
    requires { IsProblem problem.now }
    ensures { result ≡ count_of problem.now }
{
    count_at(problem, problem.size)
}

/// The greatest number of states, from 1 to `max`, for which the problem has at most so many base clauses, and 0 where it
/// has more for each. For fewer states there are fewer clauses. The problem's own size isn't looked at.
///
/// Takes at most `max` times as long as `count`, and no memory.
pub fn allowed_sizes(problem: &Problem, max: u32) -> u32
    requires problem { IsProblem problem.now }
    requires max { max ≤ SMALL_LIMITS.machine }
    ensures value { result ≡ allowed_sizes problem.now max }
    ensures within { result ≤ max }
{
    for fewer in (0..max).rev() {
        if count_at(problem, fewer + 1).is_some() {
            return fewer + 1;
        }
    }
    0
}

/// The number of base clauses for this many states, or None where it passes the limit.
fn count_at(problem: &Problem, size: u32) -> Option<u64>
    requires problem { IsProblem problem.now }
    requires some { 1 ≤ size }
    requires size { size ≤ SMALL_LIMITS.machine }
    ensures { result ≡ count_of (sized problem.now size) }
{
    let numbering = Numbering::new(problem);
    let most = most_clauses(problem);
    let mut total = count_beside_edges(problem, numbering, size);
    if total > most {
        return None;
    }
    let edges = problem.automaton.edges();
    for edge in edges {
        total += edge_count(problem, numbering, size, *edge);
        if total > most {
            return None;
        }
    }
    Some(total)
}

/// How many clauses there are that are about no edge.
fn count_beside_edges(problem: &Problem, numbering: Numbering<'_>, size: u32) -> u64
    requires problem { IsProblem problem.now }
    requires numbering { numbering.problem.now ≡ problem.now }
    requires some { 1 ≤ size }
    requires size { size ≤ SMALL_LIMITS.machine }
    ensures value { result ≡ row_count (sized problem.now size) + 1 + chain_count (sized problem.now size) + order_count (sized problem.now size) }
    ensures small { result ≤ 257000000 }
{
    u64::from(row_count(problem, size))
        + 1
        + u64::from(chain_count(problem, numbering, size))
        + u64::from(order_count(problem, size))
}

/// How many clauses chain a pair's numbers.
fn chain_count(problem: &Problem, numbering: Numbering<'_>, size: u32) -> u32
    requires problem { IsProblem problem.now }
    requires numbering { numbering.problem.now ≡ problem.now }
    requires size { size ≤ SMALL_LIMITS.machine }
    ensures value { result ≡ chain_count (sized problem.now size) }
    ensures small { result ≤ 256000000 }
{
    if !problem.counting.is_local() {
        return 0;
    }
    size * (size * numbering.counted_before(problem.automaton.states()))
}

/// For how many numbers a step along an edge has clauses.
fn step_count(problem: &Problem, numbering: Numbering<'_>, size: u32, edge: Edge) -> u32
    requires problem { IsProblem problem.now }
    requires numbering { numbering.problem.now ≡ problem.now }
    requires size { size ≤ SMALL_LIMITS.machine }
    requires edge { JoinsStates (states_of (automaton_of problem.now)) edge }
    ensures value { result ≡ step_count (sized problem.now size) edge }
    ensures small { result ≤ 16001 }
{
    if leaves(problem, edge.from, edge.to) {
        1
    } else {
        size * numbering.rejecting_at(edge.from) + 1
    }
}

/// How many rows a machine has.
fn row_count(problem: &Problem, size: u32) -> u32
    requires problem { IsProblem problem.now }
    requires size { size ≤ SMALL_LIMITS.machine }
    ensures value { result ≡ row_count (sized problem.now size) }
    ensures small { result ≤ 2048 }
{
    size * letter_count(problem)
}

/// How many clauses order the states.
fn order_count(problem: &Problem, size: u32) -> u32
    requires problem { IsProblem problem.now }
    requires size { size ≤ SMALL_LIMITS.machine }
    ensures value { result ≡ order_count (sized problem.now size) }
    ensures small { result ≤ 12288 }
{
    if !problem.counting.is_numbered() {
        return 0;
    }
    let later = later_states(size);
    row_count(problem, size) * later
}

/// The number of states from 2 on.
fn later_states(size: u32) -> u32
    requires { size ≤ SMALL_LIMITS.machine }
    ensures value { result ≡ size - 2 }
    ensures small { result ≤ 6 }
{
    size.saturating_sub(2)
}

/// How many clauses an edge has.
fn edge_count(problem: &Problem, numbering: Numbering<'_>, size: u32, edge: Edge) -> u64
    requires problem { IsProblem problem.now }
    requires numbering { numbering.problem.now ≡ problem.now }
    requires some { 1 ≤ size }
    requires size { size ≤ SMALL_LIMITS.machine }
    requires edge { JoinsStates (states_of (automaton_of problem.now)) edge }
    ensures value { result ≡ length (edge_clauses (sized problem.now size) edge) }
    ensures small { result ≤ 262160384 }
{
    let clauses = size * state_count(problem, numbering, size, edge);
    u64::from(clauses)
}

/// How many of them are about one state.
fn state_count(problem: &Problem, numbering: Numbering<'_>, size: u32, edge: Edge) -> u32
    requires problem { IsProblem problem.now }
    requires numbering { numbering.problem.now ≡ problem.now }
    requires some { 1 ≤ size }
    requires size { size ≤ SMALL_LIMITS.machine }
    requires edge { JoinsStates (states_of (automaton_of problem.now)) edge }
    ensures value { result ≡ 2 ^ free_below problem.now edge.cube (reads_of problem.now) * (target_count (sized problem.now size) edge * step_count (sized problem.now size) edge) }
    ensures small { result ≤ 32770048 }
{
    let steps = target_count(problem, size, edge) * step_count(problem, numbering, size, edge);
    fitting_letters(problem, edge.cube) * steps
}

/// How many letters fit the cube's read signals.
fn fitting_letters(problem: &Problem, cube: Cube) -> u32
    requires { IsProblem problem.now }
    ensures value { result ≡ 2 ^ free_below problem.now cube (reads_of problem.now) }
    ensures small { result ≤ 256 }
{
    1 << free_signals(problem, cube)
}

/// How many read signals the cube leaves free.
fn free_signals(problem: &Problem, cube: Cube) -> u32
    requires { IsProblem problem.now }
    ensures value { result ≡ free_below problem.now cube (reads_of problem.now) }
    ensures small { result ≤ 8 }
{
    let mut free = 0;
    for signal in 0..problem.reads() {
        free += free_signal(cube, read_signal(problem, signal));
    }
    free
}

/// 1 where the cube neither wants nor forbids the signal, else 0.
fn free_signal(cube: Cube, signal: u32) -> u32
    ensures value { result ≡ (if is_free cube signal then 1 else 0) }
    ensures small { result ≤ 1 }
{
    if !Letter(cube.must).has(signal) && !Letter(cube.not).has(signal) {
        1
    } else {
        0
    }
}

/// To how many states an edge has clauses, from each state.
fn target_count(problem: &Problem, size: u32, edge: Edge) -> u32
    requires problem { IsProblem problem.now }
    requires some { 1 ≤ size }
    requires size { size ≤ SMALL_LIMITS.machine }
    requires edge { JoinsStates (states_of (automaton_of problem.now)) edge }
    ensures value { result ≡ target_count (sized problem.now size) edge }
    ensures small { result ≤ 8 }
{
    if edge.from == edge.to && !problem.automaton.is_rejecting(edge.to) {
        size - 1
    } else {
        size
    }
}
