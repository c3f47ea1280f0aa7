//! The product of a circuit and an automaton, and which of its pairs keep the rule.

ghost use Rattle.std.specs.Prelude.{◌≡◌, ◌↔◌, ◌<◌, All, IfOk, IsTrue, MatchOption, OnOk, Some, false, length, map, true};
ghost use Rattle.std.specs.List.Sorted.{IsNonDecreasingBy};
ghost use Rattle.machine_model.specs.declared.automata.Edge.{Edge as AnEdge};
ghost use Rattle.machine_model.specs.Automaton.{JoinsStates, states_of};
ghost use Rattle.aiger_text.specs.Step.{IsStateOf};
ghost use Rattle.annot_check.specs.Causes.{CanBeChecked, IsFirstBroken};
ghost use Rattle.annot_check.specs.Numbers.{Knows, greatest_at};
ghost use Rattle.annot_check.specs.declared.product.Keyed.{Keyed as AKeyed};
ghost use Rattle.annot_check.specs.Steps.{AreEdgesFrom, ArePlaces, AreReactions, HasTheEdges, IsEnough, LeadsOn, OneFails, TellsRule, TellsStart, earlier_of};
ghost use Rattle.annot_check.specs.Valid.{KeepsRule};

use crate::numbers::{Numbers, Place};
use crate::pairs::{Code, Pair};
use crate::steps::{Reactions, all_reactions, latches_of};
use aiger_text::{Circuit, CircuitState};
use indexmap::IndexSet;
use letters_and_lassos::{Letter, Side};
use machine_model::{Automaton, Edge};
use std::alloc::{AllocError, Global};

/// A circuit and an automaton that go together, with the numbers of the pairs that stand.
#[derive(Drop)]
pub(crate) struct Product<'a> {
    pub(crate) alloc: Global,
    pub(crate) circuit: &'a Circuit,
    pub(crate) side: Side,
    pub(crate) automaton: &'a Automaton,
    pub(crate) inputs: u32,
    pub(crate) numbers: &'a Numbers,
}

impl<'a> Product<'a> {
    /// Whether the place stands with this number, and with one more where its state is rejecting.
    fn stands(&self, place: &Place, number: u32) -> bool
        requires { place.now.state < states_of self.now.automaton.now }
        ensures { IsTrue result ↔ IsEnough self.now.numbers.now self.now.automaton.now number place.now.code place.now.state }
    {
        let least = u64::from(number) + u64::from(self.automaton.is_rejecting(place.state));
        match self.numbers.greatest_at(place) {
            Some(greatest) => least <= u64::from(greatest),
            None => false,
        }
    }

    /// Whether the start stands.
    pub(crate) fn starts(&self) -> Result<bool, AllocError>
        ensures { IfOk result (TellsStart self.now.circuit.now self.now.automaton.now self.now.numbers.now) }
    {
        let circuit: &Circuit = self.circuit;
        let state = CircuitState::new(self.alloc, circuit)?;
        let code = latches_of(self.alloc, &state, circuit.latches.len())?;
        let _states = self.automaton.states();
        Ok(self.stands(&Place { code, state: 0 }, 0))
    }

    /// The first pair that breaks the rule. Pairs of one code are looked at one after the other, so that the circuit goes once from it.
    pub(crate) fn first_broken(&self, pairs: &[Pair]) -> Result<Option<usize>, AllocError>
        requires checked { CanBeChecked self.now.circuit.now self.now.inputs pairs.now }
        requires knows { Knows (greatest_at self.now.numbers.now) pairs.now }
        ensures { IfOk result (λ found. MatchOption found (All (KeepsRule self.now.side self.now.circuit.now self.now.automaton.now pairs.now) pairs.now)
            (IsFirstBroken self.now.side self.now.circuit.now self.now.automaton.now pairs.now)) }
    {
        let circuit: &Circuit = self.circuit;
        let edges = by_source(self.alloc, self.automaton.edges())?;
        let order = by_code(self.alloc, pairs)?;
        let mut state = CircuitState::new(self.alloc, circuit)?;
        let start = latches_of(self.alloc, &state, circuit.latches.len())?;
        let mut known = all_reactions(self.alloc, circuit, self.side, &mut state, start)?;
        let mut first: Option<usize> = None;
        for place in &order {
            let pair = &pairs[*place];
            known = self.known_for(known, &mut state, &pair.code)?;
            if !self.keeps_rule(pair, edges_from(&edges, pair.state), &known)? {
                first = Some(earlier(first, *place));
            }
        }
        Ok(first)
    }

    /// What the circuit does from this code, where it is known of some code.
    fn known_for(
        &self,
        known: Reactions,
        state: &mut CircuitState,
        code: &Code,
    ) -> Result<Reactions, AllocError>
        requires known { AreReactions self.now.side self.now.circuit.now known }
        requires fits { IsStateOf self.now.circuit.now state.old }
        requires code { length code.now ≡ length self.now.circuit.now.latches }
        requires inputs { length self.now.circuit.now.inputs < 17 }
        requires outputs { length self.now.circuit.now.outputs < 17 }
        ensures reactions { IfOk result (AreReactions self.now.side self.now.circuit.now) }
        ensures code { IfOk result (λ r. r.code ≡ code.now) }
        ensures fits { OnOk result (IsStateOf self.now.circuit.now state.new) }
    {
        if known.code == *code {
            return Ok(known);
        }
        all_reactions(self.alloc, self.circuit, self.side, state, code.clone()?)
    }

    /// Whether a pair keeps the rule, where these are the edges of its state, and what the circuit does from its code.
    fn keeps_rule(&self, pair: &Pair, edges: &[Edge], known: &Reactions) -> Result<bool, AllocError>
        requires known { AreReactions self.now.side self.now.circuit.now known.now }
        requires code { known.now.code ≡ pair.now.code }
        requires edges { AreEdgesFrom self.now.automaton.now.edges edges.now pair.now.state }
        ensures { IfOk result (TellsRule self.now.side self.now.circuit.now self.now.automaton.now self.now.numbers.now pair.now) }
    {
        let _states = self.automaton.states();
        for step in &known.steps {
            if !self.all_lead(edges, step.letter, pair.number, &step.next)? {
                return Ok(false);
            }
        }
        Ok(true)
    }

    /// Whether each edge that fits leads to a pair that stands, with a number that is large enough behind this one.
    fn all_lead(
        &self,
        edges: &[Edge],
        letter: Letter,
        number: u32,
        next: &Code,
    ) -> Result<bool, AllocError>
        requires { All (JoinsStates (states_of self.now.automaton.now)) edges.now }
        ensures all { IfOk result (λ lead. lead ≡ true → All (LeadsOn letter (IsEnough self.now.numbers.now self.now.automaton.now number next.now)) edges.now) }
        ensures one { IfOk result (λ lead. lead ≡ false → OneFails letter (IsEnough self.now.numbers.now self.now.automaton.now number next.now) edges.now) }
    {
        let mut place = Place {
            code: next.clone()?,
            state: 0,
        };
        for edge in edges {
            if !edge.cube.fits(letter) {
                continue;
            }
            place.state = edge.to;
            if !self.stands(&place, number) {
                return Ok(false);
            }
        }
        Ok(true)
    }
}

/// The earlier one of a place that was found, if one was, and of this place.
fn earlier(found: Option<usize>, place: usize) -> usize
    ensures { Some result ≡ earlier_of found place }
{
    match found {
        None => place,
        Some(found) => found.min(place),
    }
}

/// A place in a list of pairs, by the number of its code among those of the list.
#[derive(Clone, Copy)]
struct Keyed {
    code: usize,
    place: usize,
}

/// The places of pairs, those of one code together.
fn by_code(alloc: Global, pairs: &[Pair]) -> Result<Vec<usize>, AllocError>
    ensures { IfOk result (λ places. ArePlaces (length pairs.now) places.items) }
{
    let mut keyed = keyed_places(alloc, pairs)?;
    keyed.sort_unstable_by_key(|k| k.code);
    places_of(alloc, &keyed)
}

fn places_of(alloc: Global, keyed: &[Keyed]) -> Result<Vec<usize>, AllocError>
    ensures { IfOk result (λ places. places.items ≡ map (λ (k : AKeyed). k.place) keyed.now) }
{
    keyed.iter().map(|k| k.place).collect(alloc)
}

/// The places of pairs, each by its code.
fn keyed_places(alloc: Global, pairs: &[Pair]) -> Result<Vec<Keyed>, AllocError>
    ensures { IfOk result (λ keyed. ArePlaces (length pairs.now) (map (λ (k : AKeyed). k.place) keyed.items)) }
{
    let mut codes: IndexSet<Code> = IndexSet::new(alloc);
    let mut keyed: Vec<Keyed> = Vec::new(alloc);
    for (place, pair) in pairs.iter().enumerate() {
        let (code, _) = codes.insert_full(pair.code.clone()?)?;
        keyed.push(Keyed { code, place })?;
    }
    Ok(keyed)
}

/// The edges, sorted by their source.
fn by_source(alloc: Global, edges: &[Edge]) -> Result<Vec<Edge>, AllocError>
    ensures sorted { IfOk result (λ sorted. IsNonDecreasingBy (λ (edge : AnEdge). edge.from) sorted.items) }
    ensures same { IfOk result (λ sorted. HasTheEdges edges.now sorted.items) }
{
    let mut sorted = edges.to_vec(alloc)?;
    sorted.sort_unstable_by_key(|edge| edge.from);
    Ok(sorted)
}

/// The edges of a source, where edges are sorted by it. A binary search.
fn edges_from(edges: &[Edge], source: u32) -> &[Edge]
    requires { IsNonDecreasingBy (λ (edge : AnEdge). edge.from) edges.now }
    ensures { AreEdgesFrom edges.now result.now source }
{
    let begin = edges.partition_point(|edge| edge.from < source);
    let end = edges.partition_point(|edge| edge.from <= source);
    &edges[begin..end]
}
