ghost use Rattle.std.specs.Prelude.{◌≡◌, ◌+◌, ◌<◌, ◌≤◌, IfOk, length, vec_len};
ghost use Rattle.text_limits.specs.declared.TheConstants.{SMALL_LIMITS};
ghost use Rattle.machine_model.specs.Automaton.{states_of};
ghost use Rattle.machine_model.specs.Reached.{AreAlone, ArePassedOn, AreReached, HasAlso, HasEdges, HasOnly, IsPassed, is_in};

use crate::automata::Automaton;
use std::alloc::{AllocError, Global};

const WORDS: usize = 32;

/// A set of states below 2,048.
#[derive(Clone, Copy)]
pub struct StateSet {
    words: [u64; WORDS],
}

impl StateSet {
    /// The set of one state.
    fn of(q: u32) -> StateSet
        requires { q < 2048 }
        ensures { HasOnly q result.words }
    {
        let mut set = StateSet { words: [0; WORDS] };
        set.insert(q);
        set
    }

    /// Whether a state is in the set.
    pub fn has(&self, q: u32) -> bool
        requires { q < 2048 }
        ensures { result ≡ is_in self.now.words q }
    {
        let shifted = self.words[q as usize / 64] >> (q % 64);
        shifted & 1 == 1
    }

    fn insert(&mut self, q: u32)
        requires { q < 2048 }
        ensures { HasAlso q self.old.words self.new.words }
    {
        self.words[q as usize / 64] |= 1 << (q % 64);
    }

    /// Adds the states of the other set, where state `k` is in this one.
    fn pass(&mut self, k: u32, other: &StateSet)
        requires { k < 2048 }
        ensures { IsPassed k other.now.words self.old.words self.new.words }
    {
        if !self.has(k) {
            return;
        }
        for (place, word) in self.words.iter_mut().enumerate() {
            *word |= other.words[place];
        }
    }
}

/// For each state of an automaton of at most as many states as the smaller limits allow the set of those that a path leads to.
///
/// What leads from one state to the next is closed one middle state after the other.
pub(crate) fn reached_from(
    alloc: Global,
    automaton: &Automaton,
) -> Result<Vec<StateSet>, AllocError>
    requires { states_of automaton.now ≤ SMALL_LIMITS.automaton.states }
    ensures { IfOk result (λ sets. AreReached automaton.now sets.items) }
{
    let mut sets = alone(alloc, automaton.states())?;
    add_edges(&mut sets, automaton);
    for k in 0..automaton.states() {
        pass_on(&mut sets, k);
    }
    Ok(sets)
}

/// The first `states` states, each alone in its set.
fn alone(alloc: Global, states: u32) -> Result<Vec<StateSet>, AllocError>
    requires { states ≤ SMALL_LIMITS.automaton.states }
    ensures { IfOk result (λ sets. AreAlone states sets.items) }
{
    let mut sets = Vec::new(alloc);
    for q in 0..states {
        sets.push(StateSet::of(q))?;
    }
    Ok(sets)
}

/// Adds to the set of each state those that an edge leads to.
fn add_edges(sets: &mut [StateSet], automaton: &Automaton)
    requires few { states_of automaton.now ≤ SMALL_LIMITS.automaton.states }
    requires alone { AreAlone (states_of automaton.now) sets.old }
    ensures { HasEdges automaton.now sets.new }
{
    for edge in automaton.edges() {
        sets[edge.from as usize].insert(edge.to);
    }
}

/// Adds what the set of state `k` has to each set that has `k`.
fn pass_on(sets: &mut [StateSet], k: u32)
    requires few { k < 2048 }
    requires place { k < length sets.old }
    ensures { ArePassedOn k sets.old sets.new }
{
    let beyond = sets[k as usize];
    for set in sets.iter_mut() {
        set.pass(k, &beyond);
    }
}
