ghost use Rattle.std.specs.Prelude.{◌≡◌, ◌==◌, ◌<◌, ◌≤◌, ◌^◌, Err, IfOk, OnOk, fold, length, map, slice_get};
ghost use Rattle.std.specs.List.{position_or_len};
ghost use Rattle.std.specs.Option.{option_copied};
ghost use Rattle.obligation_sets.specs.Ids.{is_among};
ghost use Rattle.cobuchi_build.specs.Explored.{counter_after};

use crate::building::BuildFault;
use indexmap::IndexSet;
use ltl_formula::FormulaId;
use machine_model::Edge;
use obligation_sets::{Cover, ObligationSet};
use std::alloc::{AllocError, Global};
use std::marker::Model;
use text_limits::AutomatonLimits;

/// A state of the automaton, named by what it is.
#[derive(Debug, Drop, PartialEq, Eq, Hash)]
pub struct State {
    /// What is to hold from here on.
    pub set: ObligationSet,
    /// The number of the until that is waited for, or the number of all untils.
    pub counter: u32,
}

impl State {
    ghost use Rattle.cobuchi_build.specs.Explored.{start_state, state_after};

    /// The state that the automaton of `f` starts in.
    pub fn start(alloc: Global, f: FormulaId) -> Result<State, AllocError>
        ensures { IfOk result (λ state. state ≡ start_state f) }
    {
        Ok(State {
            set: ObligationSet::new(Vec::from_slice(alloc, &[f])?),
            counter: 0,
        })
    }

    /// The state that a cover of a state with this counter leads to.
    pub fn after(
        alloc: Global,
        untils: &[FormulaId],
        counter: u32,
        cover: &Cover,
    ) -> Result<State, AllocError>
        requires few { length untils.now < 2 ^ 32 }
        requires counter { counter ≤ length untils.now }
        ensures { IfOk result (λ state. state ≡ state_after untils.now counter cover.now) }
    {
        Ok(State {
            set: ObligationSet::new(Vec::from_slice(alloc, cover.next.ids())?),
            counter: counter_after(untils, counter, &cover.postponed),
        })
    }
}

/// The counter after a step that puts these untils off. It takes a binary search for each until.
pub fn counter_after(untils: &[FormulaId], counter: u32, postponed: &ObligationSet) -> u32
    requires few { length untils.now < 2 ^ 32 }
    requires counter { counter ≤ length untils.now }
    ensures value { result ≡ counter_after untils.now counter postponed.now }
    ensures within { result ≤ length untils.now }
{
    let begin = if counter as usize == untils.len() {
        0
    } else {
        counter as usize
    };
    (begin + met_in_turn(&untils[begin..], postponed)) as u32
}

/// How many untils come before the first that was put off. It takes a binary search for each.
fn met_in_turn(untils: &[FormulaId], postponed: &ObligationSet) -> usize
    ensures value { result ≡ position_or_len (is_among postponed.now) untils.now }
    ensures within { result ≤ length untils.now }
{
    for (number, until) in untils.iter().enumerate() {
        if postponed.contains(*until) {
            return number;
        }
    }
    untils.len()
}

/// For each state whether its counter is `untils`.
fn rejecting(alloc: Global, states: &[State], untils: usize) -> Result<Vec<bool>, AllocError>
    ensures { IfOk result (λ v. v.items ≡ map (λ state. state.counter == untils) states.now) }
{
    states
        .iter()
        .map(|state| state.counter as usize == untils)
        .collect(alloc)
}

/// The states and edges that were met, in the order in which they were first met.
#[derive(Drop)]
pub(crate) struct Found {
    states: IndexSet<State>,
    edges: IndexSet<Edge>,
}

impl Model for Found {
    ghost use Rattle.cobuchi_build.specs.Explored.{Explored};

    ghost Value = { Explored };

    ghost view = { λ found. record { states = found.states.keys; edges = found.edges.keys } };
}

impl Found {
    ghost use Rattle.std.specs.Prelude.{[], ◌∷◌, ◌⊎◌};
    ghost use Rattle.cobuchi_build.specs.Explored.{Explored, meeting, start_state};
    ghost use Rattle.cobuchi_build.specs.Sizes.{HasRoom, HasTooMany};

    /// The start alone.
    pub(crate) fn start(alloc: Global, f: FormulaId) -> Result<Found, AllocError>
        ensures { IfOk result (λ found. found ≡ record { states = start_state f ∷ []; edges = [] }) }
    {
        let mut states = IndexSet::new(alloc);
        states.insert(State::start(alloc, f)?)?;
        Ok(Found {
            states,
            edges: IndexSet::new(alloc),
        })
    }

    /// The state with this number.
    pub(crate) fn state(&self, number: usize) -> Option<&State>
        ensures { option_copied result ≡ slice_get self.now.states number }
    {
        self.states.get_index(number)
    }

    /// Meets the state and the edge of each cover of state `number` in turn, as far as the limits go.
    pub(crate) fn expand(
        &mut self,
        alloc: Global,
        untils: &[FormulaId],
        number: u32,
        counter: u32,
        covers: &[Cover],
        limits: AutomatonLimits,
    ) -> Result<(), BuildFault>
        requires few { length untils.now < 2 ^ 32 }
        requires counter { counter ≤ length untils.now }
        requires room { HasRoom limits self.old }
        ensures ok { OnOk result (self.new ≡ fold (meeting untils.now number counter) self.old covers.now) }
        ensures room { OnOk result (HasRoom limits self.new) }
        ensures too_large { result ≡ Err BuildFault.TooLarge → HasTooMany limits (fold (meeting untils.now number counter) self.old covers.now) }
        ensures nodes { result ≡ Err BuildFault.TooManyNodes → ⊥ }
    {
        for cover in covers {
            self.meet(alloc, untils, number, counter, cover, limits)?;
        }
        Ok(())
    }

    /// Meets the state and the edge of one cover of state `number`.
    fn meet(
        &mut self,
        alloc: Global,
        untils: &[FormulaId],
        number: u32,
        counter: u32,
        cover: &Cover,
        limits: AutomatonLimits,
    ) -> Result<(), BuildFault>
        requires few { length untils.now < 2 ^ 32 }
        requires counter { counter ≤ length untils.now }
        requires room { HasRoom limits self.old }
        ensures ok { OnOk result (self.new ≡ meeting untils.now number counter self.old cover.now) }
        ensures room { OnOk result (HasRoom limits self.new) }
        ensures too_large { result ≡ Err BuildFault.TooLarge → HasTooMany limits (meeting untils.now number counter self.old cover.now) }
        ensures nodes { result ≡ Err BuildFault.TooManyNodes → ⊥ }
    {
        let target = State::after(alloc, untils, counter, cover)?;
        let (to, _) = self.states.insert_full(target)?;
        if self.states.len() > limits.states as usize {
            return Err(BuildFault::TooLarge);
        }
        self.edges.insert(Edge {
            from: number,
            cube: cover.cube,
            to: to as u32,
        })?;
        if self.edges.len() > limits.edges {
            return Err(BuildFault::TooLarge);
        }
        Ok(())
    }

    /// The edges in their order, and for each state whether its counter is `untils`.
    pub(crate) fn into_parts(
        self,
        alloc: Global,
        untils: usize,
    ) -> Result<(Vec<Edge>, Vec<bool>), AllocError>
        ensures edges { IfOk result (λ parts. parts.0.items ≡ self.edges) }
        ensures rejecting { IfOk result (λ parts. parts.1.items ≡ map (λ state. state.counter == untils) self.states) }
    {
        let edges = self.edges.into_iter().collect(alloc)?;
        let states: Vec<State> = self.states.into_iter().collect(alloc)?;
        Ok((edges, rejecting(alloc, &states, untils)?))
    }
}
