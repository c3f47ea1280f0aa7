ghost use Rattle.std.specs.Prelude.{◌≡◌, ◌↔◌, ◌^◌, ◌<◌, ◌≤◌, IsTrue, length};
ghost use Rattle.text_limits.specs.declared.TheConstants.{SMALL_LIMITS};
ghost use Rattle.machine_model.specs.Accepts.{SideAccepts};
ghost use Rattle.machine_model.specs.Automaton.{states_of};
ghost use Rattle.machine_model.specs.Problem.{IsMachineOf, IsProblem, automaton_of};
ghost use Rattle.product_bound.specs.Annotation.{HasNumber, IsValidAnnotation, bound_at, bound_of, leaves, number_after, number_at, places_of, rejecting_at, rise_at, start_number};
ghost use Rattle.product_bound.specs.Kept.{AreWithin, IsStateWithin, IsWithinBound, KeepsEdges, KeepsLetters, KeepsNumber, KeepsStates};

use machine_model::laws::{components_are_classes, joined_is_reached};
use machine_model::{Automaton, Machine, Problem, whole_letter};

/// How often rejecting states may have been met where the machine and the automaton are in two states at once.
///
/// The number of the pair of the machine's state t and the automaton's state q stands at the place t * Q + q, for the
/// automaton's Q states; a pair that is never met needs none.
#[derive(Debug, Drop)]
pub struct Annotation {
    pub numbers: Vec<Option<u32>>,
}

/// The greatest number that an annotation may hold where all rejecting states are counted: the machine's size times their
/// number.
pub fn bound_of(problem: &Problem) -> u32
    requires { IsProblem problem.now }
    ensures { result ≡ bound_of problem.now }
{
    problem.size * problem.automaton.rejecting_count()
}

/// The greatest number that an annotation may hold for state `q` of the automaton: the machine's size times the number of
/// rejecting states that are counted there.
///
/// Takes a step for each state where all rejecting states are counted.
pub fn bound_at(problem: &Problem, q: u32) -> u32
    requires problem { IsProblem problem.now }
    requires state { q < states_of (automaton_of problem.now) }
    ensures { result ≡ bound_at problem.now q }
{
    problem.size * rejecting_at(problem, q)
}

/// How many rejecting states are counted in state `q`: all of them, or, where numbers count by component, those that a run
/// that stays in its component can meet.
pub fn rejecting_at(problem: &Problem, q: u32) -> u32
    requires problem { IsProblem problem.now }
    requires state { q < states_of (automaton_of problem.now) }
    ensures value { result ≡ rejecting_at problem.now q }
    ensures few { result ≤ SMALL_LIMITS.automaton.states }
{
    components_are_classes();
    let _states = problem.automaton.states();
    match problem.components() {
        Some(components) => components.count(q),
        None => problem.automaton.rejecting_count(),
    }
}

/// Whether numbers are counted anew at an edge from state `q` to state `r`: where they count by component and it leaves one.
pub fn leaves(problem: &Problem, q: u32, r: u32) -> bool
    requires problem { IsProblem problem.now }
    requires from { q < states_of (automaton_of problem.now) }
    requires to { r < states_of (automaton_of problem.now) }
    ensures { result ≡ leaves problem.now q r }
{
    match problem.components() {
        Some(components) => !components.are_joined(q, r),
        None => false,
    }
}

/// Whether the annotation is valid: numbers are within the bounds of their states, the first pair has one that counts a
/// rejecting start, and along each edge that fits what the machine reads and writes they don't fall, and rise into a
/// rejecting state. Where they count by component they are counted anew behind an edge that leaves one, and at the start.
///
/// Takes as many steps as there are edges, states of the machine and read letters, multiplied, and at most one for each two
/// states of the automaton. It takes no memory.
pub fn is_valid(problem: &Problem, machine: &Machine, annotation: &Annotation) -> bool
    requires problem { IsProblem problem.now }
    requires machine { IsMachineOf problem.now machine.now }
    requires places { length annotation.now.numbers.items ≡ places_of problem.now }
    ensures rule { IsTrue result ↔ IsValidAnnotation problem.now machine.now annotation.now.numbers.items }
    ensures accepted { IsTrue result → SideAccepts (automaton_of problem.now) problem.now.side machine.now }
{
    joined_is_reached();
    let numbers = annotation.numbers.as_slice();
    let states = problem.automaton.states();
    let size = machine.size();
    prove!(states > 0 && size == problem.size);
    if !are_within(problem, numbers) {
        return false;
    }
    if !starts_high_enough(problem, numbers) {
        return false;
    }
    keeps_states(problem, machine, numbers)
}

/// Whether no number passes the bound of its state.
fn are_within(problem: &Problem, numbers: &[Option<u32>]) -> bool
    requires problem { IsProblem problem.now }
    requires places { length numbers.now ≡ places_of problem.now }
    ensures { IsTrue result ↔ AreWithin problem.now numbers.now }
{
    let states = problem.automaton.states();
    for q in 0..states {
        if !is_state_within(problem, numbers, q) {
            return false;
        }
    }
    true
}

/// Whether no number of state `q` of the automaton passes its bound.
fn is_state_within(problem: &Problem, numbers: &[Option<u32>], q: u32) -> bool
    requires problem { IsProblem problem.now }
    requires places { length numbers.now ≡ places_of problem.now }
    requires state { q < states_of (automaton_of problem.now) }
    ensures { IsTrue result ↔ IsStateWithin problem.now numbers.now q }
{
    let bound = bound_at(problem, q);
    for t in 0..problem.size {
        if !is_within(number_at(problem, numbers, t, q), bound) {
            return false;
        }
    }
    true
}

/// Whether the number, if there is one, is at most the bound.
fn is_within(number: Option<u32>, bound: u32) -> bool
    ensures { IsTrue result ↔ IsWithinBound bound number }
{
    match number {
        Some(number) => number <= bound,
        None => true,
    }
}

/// Whether the first pair has a number, which counts the start where it is rejecting and all rejecting states are counted.
fn starts_high_enough(problem: &Problem, numbers: &[Option<u32>]) -> bool
    requires problem { IsProblem problem.now }
    requires places { length numbers.now ≡ places_of problem.now }
    ensures { IsTrue result ↔ HasNumber problem.now numbers.now 0 0 (start_number problem.now) }
{
    let _states = problem.automaton.states();
    match number_at(problem, numbers, 0, 0) {
        Some(number) => number >= start_number(problem),
        None => false,
    }
}

/// The least number of the first pair.
fn start_number(problem: &Problem) -> u32
    requires { 0 < states_of (automaton_of problem.now) }
    ensures { result ≡ start_number problem.now }
{
    if problem.counting.is_local() {
        0
    } else {
        rise_at(&problem.automaton, 0)
    }
}

/// Whether numbers are as they should along all edges from all states of the machine.
fn keeps_states(problem: &Problem, machine: &Machine, numbers: &[Option<u32>]) -> bool
    requires problem { IsProblem problem.now }
    requires machine { IsMachineOf problem.now machine.now }
    requires places { length numbers.now ≡ places_of problem.now }
    ensures { IsTrue result ↔ KeepsStates problem.now machine.now numbers.now }
{
    for t in 0..problem.size {
        if !keeps_letters(problem, machine, numbers, t) {
            return false;
        }
    }
    true
}

/// Whether they are along all edges from state `t`.
fn keeps_letters(problem: &Problem, machine: &Machine, numbers: &[Option<u32>], t: u32) -> bool
    requires problem { IsProblem problem.now }
    requires machine { IsMachineOf problem.now machine.now }
    requires places { length numbers.now ≡ places_of problem.now }
    requires state { t < problem.now.size }
    ensures { IsTrue result ↔ KeepsLetters problem.now machine.now numbers.now t }
{
    let letters = letter_count(machine);
    for read in 0..letters {
        if !keeps_edges(problem, machine, numbers, t, read) {
            return false;
        }
    }
    true
}

/// The number of letters that the machine reads.
pub(crate) fn letter_count(machine: &Machine) -> u32
    ensures value { result ≡ 2 ^ machine.now.reads }
    ensures some { 0 < result }
{
    1 << machine.reads()
}

/// Whether they are along all edges from state `t` on a read letter.
fn keeps_edges(
    problem: &Problem,
    machine: &Machine,
    numbers: &[Option<u32>],
    t: u32,
    read: u32,
) -> bool
    requires problem { IsProblem problem.now }
    requires machine { IsMachineOf problem.now machine.now }
    requires places { length numbers.now ≡ places_of problem.now }
    requires state { t < problem.now.size }
    requires letter { read < 2 ^ machine.now.reads }
    ensures { IsTrue result ↔ KeepsEdges problem.now machine.now numbers.now t read }
{
    let letter = whole_letter(machine, problem.side, t, read);
    let next = machine.next(t, read);
    let edges = problem.automaton.edges();
    for edge in edges {
        if !edge.cube.fits(letter) {
            continue;
        }
        if !keeps_number(problem, numbers, (t, edge.from), (next, edge.to)) {
            return false;
        }
    }
    true
}

/// Whether the number of the pair `to` is as an edge from the pair `from` wants it.
fn keeps_number(
    problem: &Problem,
    numbers: &[Option<u32>],
    from: (u32, u32),
    to: (u32, u32),
) -> bool
    requires problem { IsProblem problem.now }
    requires places { length numbers.now ≡ places_of problem.now }
    requires from_state { from.0 < problem.now.size }
    requires from_pair { from.1 < states_of (automaton_of problem.now) }
    requires to_state { to.0 < problem.now.size }
    requires to_pair { to.1 < states_of (automaton_of problem.now) }
    ensures { IsTrue result ↔ KeepsNumber problem.now numbers.now from.0 from.1 to.0 to.1 }
{
    match (
        number_at(problem, numbers, from.0, from.1),
        number_at(problem, numbers, to.0, to.1),
    ) {
        (None, _) => true,
        (Some(_), None) => false,
        (Some(number), Some(after)) => is_enough(problem, (from.1, number), (to.1, after)),
    }
}

/// Whether the second state's number is high enough behind an edge from the first state with its number.
fn is_enough(problem: &Problem, from: (u32, u32), to: (u32, u32)) -> bool
    requires problem { IsProblem problem.now }
    requires from { from.0 < states_of (automaton_of problem.now) }
    requires to { to.0 < states_of (automaton_of problem.now) }
    ensures { IsTrue result ↔ (number_after problem.now from.0 to.0 from.1 ≤ to.1) }
{
    if leaves(problem, from.0, to.0) {
        return true;
    }
    if problem.automaton.is_rejecting(to.0) {
        from.1 < to.1
    } else {
        from.1 <= to.1
    }
}

/// The number of a pair, if it has one.
fn number_at(problem: &Problem, numbers: &[Option<u32>], t: u32, q: u32) -> Option<u32>
    requires problem { IsProblem problem.now }
    requires places { length numbers.now ≡ places_of problem.now }
    requires state { t < problem.now.size }
    requires pair { q < states_of (automaton_of problem.now) }
    ensures { result ≡ number_at problem.now numbers.now t q }
{
    numbers[t as usize * problem.automaton.states() as usize + q as usize]
}

/// 1 where the state is rejecting, else 0.
fn rise_at(automaton: &Automaton, q: u32) -> u32
    requires { q < states_of automaton.now }
    ensures { result ≡ rise_at automaton.now q }
{
    if automaton.is_rejecting(q) { 1 } else { 0 }
}
