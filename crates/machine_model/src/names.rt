ghost use Rattle.std.specs.Prelude.{◌≡◌, ◌==◌, ◌+◌, ◌<◌, ◌≤◌, ◌&&◌, IfOk, OnOk, length, slice_index_or, if◌then◌else◌};
ghost use Rattle.text_limits.specs.declared.TheConstants.{LARGE_LIMITS, SMALL_LIMITS};
ghost use Rattle.machine_model.specs.Automaton.{states_of};
ghost use Rattle.machine_model.specs.Marked.{is_marked};
ghost use Rattle.machine_model.specs.Named.{AreNamed, AreNamesBelow, IsLeastBelow, IsOneMore, lead_both_ways};

use crate::automata::Automaton;
use crate::marks::{Way, led_to};
use crate::reached::{StateSet, reached_from};
use std::alloc::{AllocError, Global};
use text_limits::SMALL_LIMITS;

/// A name of each state's component: the least of its states.
///
/// Of few states sets are kept, which is faster where there are many components.
pub(crate) fn names(alloc: Global, automaton: &Automaton) -> Result<Vec<u32>, AllocError>
    requires { states_of automaton.now ≤ LARGE_LIMITS.automaton.states }
    ensures { IfOk result (λ names. AreNamed automaton.now names.items) }
{
    if automaton.states() <= SMALL_LIMITS.automaton.states {
        names_by_sets(alloc, automaton)
    } else {
        names_by_marks(alloc, automaton)
    }
}

/// The names, by the set of the states that each leads to.
fn names_by_sets(alloc: Global, automaton: &Automaton) -> Result<Vec<u32>, AllocError>
    requires { states_of automaton.now ≤ SMALL_LIMITS.automaton.states }
    ensures { IfOk result (λ names. AreNamed automaton.now names.items) }
{
    let sets = reached_from(alloc, automaton)?;
    let mut names = Vec::new(alloc);
    for q in 0..automaton.states() {
        names.push(least_joined(&sets, q))?;
    }
    Ok(names)
}

/// The least state that leads to state `q` and is led to by it, or `q` itself.
fn least_joined(sets: &[StateSet], q: u32) -> u32
    requires few { length sets.now ≤ SMALL_LIMITS.automaton.states }
    requires place { q < length sets.now }
    ensures { IsLeastBelow (lead_both_ways sets.now q) q result }
{
    for r in 0..q {
        if lead_both_ways(sets, q, r) {
            return r;
        }
    }
    q
}

fn lead_both_ways(sets: &[StateSet], q: u32, r: u32) -> bool
    requires few { length sets.now ≤ SMALL_LIMITS.automaton.states }
    requires first { q < length sets.now }
    requires second { r < length sets.now }
    ensures { result ≡ lead_both_ways sets.now q r }
{
    sets[q as usize].has(r) && sets[r as usize].has(q)
}

/// The names, by marks of what each component leads to and of what leads to it.
///
/// Takes for each component a pass over the edges at least, mostly four.
fn names_by_marks(alloc: Global, automaton: &Automaton) -> Result<Vec<u32>, AllocError>
    requires { states_of automaton.now ≤ LARGE_LIMITS.automaton.states }
    ensures { IfOk result (λ names. AreNamed automaton.now names.items) }
{
    let states = automaton.states();
    let mut names = vec![in alloc; states; states as usize]?;
    for q in 0..states {
        name_next(alloc, automaton, q, &mut names)?;
    }
    Ok(names)
}

/// Gives the states of the component of state `q` the name `q`, where it has none yet.
fn name_next(
    alloc: Global,
    automaton: &Automaton,
    q: u32,
    names: &mut [u32],
) -> Result<(), AllocError>
    requires state { q < states_of automaton.now }
    requires places { length names.old ≡ states_of automaton.now }
    ensures { OnOk result (AreNamesBelow automaton.now q names.old → AreNamesBelow automaton.now (q + 1) names.new) }
{
    if !is_unnamed(names, q, automaton.states()) {
        return Ok(());
    }
    name_component(alloc, automaton, q, names)?;
    Ok(())
}

/// Whether state `q` has no name yet, but the number of states.
fn is_unnamed(names: &[u32], q: u32, states: u32) -> bool
    requires { q < length names.now }
    ensures { result ≡ (slice_index_or names.now q 0 == states) }
{
    names[q as usize] == states
}

/// Gives the states of the component of state `q` the name `q`.
fn name_component(
    alloc: Global,
    automaton: &Automaton,
    q: u32,
    names: &mut [u32],
) -> Result<(), AllocError>
    requires state { q < states_of automaton.now }
    requires places { length names.old ≡ states_of automaton.now }
    ensures { OnOk result (IsOneMore automaton.now q names.old names.new) }
{
    let ahead = led_to(alloc, automaton, Way::Ahead, q)?;
    let behind = led_to(alloc, automaton, Way::Behind, q)?;
    for r in 0..automaton.states() {
        let joined = is_in_both(&ahead, &behind, r);
        names[r as usize] = new_name(joined, q, names[r as usize]);
    }
    Ok(())
}

/// Whether a state is marked both ways.
fn is_in_both(ahead: &[bool], behind: &[bool], r: u32) -> bool
    requires first { r < length ahead.now }
    requires second { r < length behind.now }
    ensures { result ≡ (is_marked ahead.now r && is_marked behind.now r) }
{
    ahead[r as usize] && behind[r as usize]
}

/// The new name of a state whose name was `old`.
fn new_name(joined: bool, q: u32, old: u32) -> u32
    ensures { result ≡ (if joined then q else old) }
{
    if joined { q } else { old }
}
