//! The automaton of the named states.

ghost use Rattle.std.specs.Prelude.{◌≡◌, ◌==◌, ◌+◌, ◌-◌, ◌^◌, ◌<◌, ◌≤◌, ◌++◌, ◌∷◌, [], false, IfOk, OnOk, length, map};
ghost use Rattle.cobuchi_build.specs.declared.exploring.State.{State as AState};
ghost use Rattle.named_annotation.specs.NamedStates.{automaton_over, edge_of, edges_from, number_of_state};
ghost use Rattle.named_annotation.specs.Parts.{HasCovers, KnowsFormula};

use crate::formula::OfFormula;
use crate::states::NamedStates;
use cobuchi_build::State;
use indexmap::IndexSet;
use ltl_formula::FormulaId;
use machine_model::{Automaton, Edge};
use obligation_sets::Cover;
use std::alloc::{AllocError, Global};

/// The automaton of the named states and of one more, the last, which stands for all that aren't named.
pub(crate) fn automaton_over(
    alloc: Global,
    of: &OfFormula<'_>,
    named: &NamedStates,
) -> Result<Automaton, AllocError>
    requires known { KnowsFormula of.now }
    requires covers { HasCovers of.now.formulas.now of.now.f named.now }
    requires few { length named.now.states.keys ≤ 20000 }
    ensures { IfOk result (λ a. a ≡ automaton_over of.now.formulas.now of.now.f named.now.states.keys) }
{
    let edges = all_edges(alloc, of, named)?;
    let rejecting = rejecting(alloc, &named.states, of.untils.len())?;
    match Automaton::new(edges, rejecting) {
        Ok(automaton) => Ok(automaton),
        Err(_) => unreachable!(),
    }
}

/// The edges of all named states.
fn all_edges(
    alloc: Global,
    of: &OfFormula<'_>,
    named: &NamedStates,
) -> Result<Vec<Edge>, AllocError>
    requires known { KnowsFormula of.now }
    requires covers { HasCovers of.now.formulas.now of.now.f named.now }
    requires few { length named.now.states.keys ≤ 20000 }
    ensures { IfOk result (λ edges. edges.items ≡ edges_from of.now.formulas.now of.now.untils.items named.now.states.keys 0 named.now.states.keys) }
{
    let mut edges: Vec<Edge> = Vec::new(alloc);
    for number in 0..named.covers.len() {
        let counter = named.counter(number);
        let covers = &named.covers[number];
        add_edges(
            &mut edges,
            alloc,
            &of.untils,
            &named.states,
            number as u32,
            counter,
            covers,
        )?;
    }
    Ok(edges)
}

/// Adds the edge of each cover of a state with this number and this counter.
fn add_edges(
    edges: &mut Vec<Edge>,
    alloc: Global,
    untils: &[FormulaId],
    states: &IndexSet<State>,
    number: u32,
    counter: u32,
    covers: &[Cover],
) -> Result<(), AllocError>
    requires untils { length untils.now < 2 ^ 32 }
    requires counter { counter ≤ length untils.now }
    requires few { length states.now.keys ≤ 20000 }
    ensures { OnOk result (edges.new.items ≡ edges.old.items ++ map (edge_of untils.now states.now.keys number counter) covers.now) }
{
    for cover in covers {
        let target = State::after(alloc, untils, counter, cover)?;
        let to = number_of_state(states, &target);
        edges.push(Edge {
            from: number,
            cube: cover.cube,
            to,
        })?;
    }
    Ok(())
}

/// The number of a state, or that of the last one where it isn't named.
fn number_of_state(states: &IndexSet<State>, state: &State) -> u32
    requires { length states.now.keys ≤ 20000 }
    ensures { result ≡ number_of_state states.now.keys state.now }
{
    states.get_index_of(state).unwrap_or(states.len()) as u32
}

/// For each named state whether its counter is `untils`, and that the last one isn't rejecting.
fn rejecting(
    alloc: Global,
    states: &IndexSet<State>,
    untils: usize,
) -> Result<Vec<bool>, AllocError>
    ensures { IfOk result (λ v. v.items ≡ map (λ (state : AState). state.counter == untils) states.now.keys ++ false ∷ []) }
{
    let mut rejecting = rejecting_named(alloc, states, untils)?;
    rejecting.push(false)?;
    Ok(rejecting)
}

fn rejecting_named(
    alloc: Global,
    states: &IndexSet<State>,
    untils: usize,
) -> Result<Vec<bool>, AllocError>
    ensures { IfOk result (λ v. v.items ≡ map (λ (state : AState). state.counter == untils) states.now.keys) }
{
    states
        .iter()
        .map(|state| state.counter as usize == untils)
        .collect(alloc)
}
