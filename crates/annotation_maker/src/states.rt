//! States of a formula's automaton, named by what they are, as they are met.

ghost use Rattle.std.specs.Prelude.{◌≡◌, All, true};
ghost use Rattle.ltl_formula.specs.Nodes.{IsNodeIn};

use crate::stops::{Limit, Stop};
use cobuchi_build::{State, untils_of};
use indexmap::{IndexMap, IndexSet};
use letters_and_lassos::Cube;
use ltl_formula::{FormulaId, Formulas};
use obligation_sets::{Cover, CoverFault, Covering, ObligationSet, covers};
use std::alloc::Global;

/// The most states that an annotation names.
const MOST_STATES: usize = 20_000;

/// More until formulas than a list of formulas has.
const MANY_UNTILS: usize = 1_000_000;

/// An edge from a state that was met.
#[derive(Clone, Copy)]
pub struct Edge {
    pub cube: Cube,
    /// The number of a state among those that were met.
    pub to: u32,
}

/// The states that were met, and those that are named, which are the ones whose edges were asked for.
#[derive(Drop)]
pub struct MetStates<'a> {
    alloc: Global,
    formulas: &'a Formulas,
    untils: Vec<FormulaId>,
    states: IndexSet<State>,
    /// The edges of each state that is named, by its number among those that were met.
    named: IndexMap<u32, Vec<Edge>>,
}

impl<'a> MetStates<'a> {
    /// The start of the automaton of a formula alone.
    pub fn start(
        alloc: Global,
        formulas: &'a Formulas,
        f: FormulaId,
    ) -> Result<MetStates<'a>, Stop> {
        if f.0 as usize >= formulas.len() {
            return Err(Stop::Passed(Limit::Leaves));
        }
        let mut states = IndexSet::new(alloc);
        states.insert(State::start(alloc, f)?)?;
        Ok(MetStates {
            alloc,
            formulas,
            untils: untils_of(alloc, formulas, f)?,
            states,
            named: IndexMap::new(alloc),
        })
    }

    /// How many states are named.
    pub(crate) fn named(&self) -> usize {
        self.named.len()
    }

    /// The state that has this number among those that are named.
    pub(crate) fn named_state(&self, number: usize) -> Option<&State> {
        let (met, _edges) = self.named.get_index(number)?;
        self.states.get_index(*met as usize)
    }

    /// The number among those that are named of a state that was met.
    pub(crate) fn number_of(&self, met: u32) -> usize {
        self.named.get_index_of(&met).unwrap_or(0)
    }

    /// Whether a state that was met is rejecting.
    pub fn is_rejecting(&self, met: u32) -> bool {
        match self.states.get_index(met as usize) {
            Some(state) => state.counter as usize == self.untils.len(),
            None => false,
        }
    }

    /// The edges of a state that was met. They are made once, and it is named then.
    pub fn edges(&mut self, met: u32) -> Result<&[Edge], Stop> {
        if !self.named.contains_key(&met) {
            let edges = self.new_edges(met)?;
            self.named.insert(met, edges)?;
        }
        match self.named.get(&met) {
            Some(edges) => Ok(edges.as_slice()),
            None => Ok(&[]),
        }
    }

    fn new_edges(&mut self, met: u32) -> Result<Vec<Edge>, Stop> {
        if self.named.len() >= MOST_STATES {
            return Err(Stop::Passed(Limit::States));
        }
        let mut edges = Vec::new(self.alloc);
        for cover in &self.covers_at(met)? {
            let state = self.state_after(met, cover)?;
            let (to, _is_new) = self.states.insert_full(state)?;
            edges.push(Edge {
                cube: cover.cube,
                to: number(to)?,
            })?;
        }
        Ok(edges)
    }

    /// The reduced covers of a state's set.
    fn covers_at(&self, met: u32) -> Result<Vec<Cover>, Stop> {
        match self.states.get_index(met as usize) {
            Some(state) => covers_of(self.alloc, self.formulas, &state.set),
            None => Err(Stop::Passed(Limit::States)),
        }
    }

    /// The state that a cover of a state leads to.
    fn state_after(&self, met: u32, cover: &Cover) -> Result<State, Stop> {
        let untils = self.untils.len();
        match self.states.get_index(met as usize) {
            Some(state) if state.counter as usize <= untils && untils < MANY_UNTILS => Ok(
                State::after(self.alloc, &self.untils, state.counter, cover)?,
            ),
            _ => Err(Stop::Passed(Limit::States)),
        }
    }
}

/// The number of a state that was met.
fn number(place: usize) -> Result<u32, Stop> {
    match u32::try_from(place) {
        Ok(number) => Ok(number),
        Err(_) => Err(Stop::Passed(Limit::States)),
    }
}

fn covers_of(alloc: Global, formulas: &Formulas, set: &ObligationSet) -> Result<Vec<Cover>, Stop> {
    if !all_stand(formulas, set.ids()) {
        return Err(Stop::Passed(Limit::Leaves));
    }
    match covers(alloc, formulas, set, Covering::Reduced) {
        Ok(found) => Ok(found),
        Err(CoverFault::TooManyLeaves) => Err(Stop::Passed(Limit::Leaves)),
        Err(CoverFault::NoMemory) => Err(Stop::NoMemory),
    }
}

/// Whether all these formulas are in the list.
fn all_stand(formulas: &Formulas, ids: &[FormulaId]) -> bool
    ensures { result ≡ true → All (IsNodeIn formulas.now) ids.now }
{
    ids.iter().all(|id| (id.0 as usize) < formulas.len())
}
