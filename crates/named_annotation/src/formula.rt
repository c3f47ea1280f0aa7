//! A formula whose states are named.

ghost use Rattle.std.specs.Prelude.{◌≡◌, ◌<◌, ◌≤◌, All, IfOk, IfSome, drop, false, is_some, length, map};
ghost use Rattle.std.specs.Bool.{OnTrue};
ghost use Rattle.std.specs.List.{list_all};
ghost use Rattle.ltl_formula.specs.Nodes.{IsNodeIn};
ghost use Rattle.obligation_sets.specs.Ids.{IdsRise, has_id};
ghost use Rattle.obligation_sets.specs.Reduced.{covers_by};
ghost use Rattle.cobuchi_build.specs.declared.exploring.State.{State as AState};
ghost use Rattle.named_annotation.specs.NamedText.{has_few_leaves, is_of_formula, rises};
ghost use Rattle.named_annotation.specs.Parts.{KnowsFormula, formula_state};

use cobuchi_build::{State, occurring, untils_of};
use ltl_formula::{FormulaId, Formulas};
use obligation_sets::{Cover, CoverFault, Covering, ObligationSet, covers};
use std::alloc::{AllocError, Global};

/// A formula of a list, with its untils, for each formula of the list whether it occurs in it, and the state that it starts in.
#[derive(Drop)]
pub(crate) struct OfFormula<'a> {
    pub(crate) formulas: &'a Formulas,
    pub(crate) f: FormulaId,
    pub(crate) untils: Vec<FormulaId>,
    pub(crate) occurs: Vec<bool>,
    pub(crate) start: State,
}

impl<'a> OfFormula<'a> {
    pub(crate) fn new(
        alloc: Global,
        formulas: &'a Formulas,
        f: FormulaId,
    ) -> Result<OfFormula<'a>, AllocError>
        requires { IsNodeIn formulas.now f }
        ensures known { IfOk result KnowsFormula }
        ensures same { IfOk result (λ of. (of.formulas.now ≡ formulas.now) × (of.f ≡ f)) }
    {
        Ok(OfFormula {
            formulas,
            f,
            untils: untils_of(alloc, formulas, f)?,
            occurs: occurring(alloc, formulas, f)?,
            start: State::start(alloc, f)?,
        })
    }

    /// The state of these numbers, of which the first is its own, where it may be one of the formula.
    pub(crate) fn state(&self, alloc: Global, numbers: &[u32]) -> Result<Option<State>, AllocError>
        requires known { KnowsFormula self.now }
        requires long { 1 < length numbers.now }
        ensures state { IfOk result (λ state. state ≡ formula_state self.now.formulas.now self.now.f numbers.now) }
        ensures counter { IfOk result (λ state. IfSome state (λ (s : AState). s.counter ≤ length self.now.untils.items)) }
        ensures stands { IfOk result (λ state. IfSome state (λ (s : AState). All (IsNodeIn self.now.formulas.now) s.set)) }
    {
        let ids = ids_of(alloc, numbers)?;
        let counter = numbers[1];
        if !self.may_be(&ids, counter) {
            return Ok(None);
        }
        Ok(Some(State {
            set: ObligationSet::new(ids),
            counter,
        }))
    }

    /// Whether these ids and this counter may be a state of the formula.
    fn may_be(&self, ids: &[FormulaId], counter: u32) -> bool
        requires known { KnowsFormula self.now }
        ensures value { result ≡ is_of_formula self.now.formulas.now self.now.f (record { set = ids.now; counter = counter }) }
    {
        rises(ids) && occur(&self.occurs, ids) && counter as usize <= self.untils.len()
    }

    /// The reduced covers of a state's set, or none where it has too many leaves.
    pub(crate) fn few_covers(
        &self,
        alloc: Global,
        state: &State,
    ) -> Result<Option<Vec<Cover>>, AllocError>
        requires { All (IsNodeIn self.now.formulas.now) state.now.set }
        ensures some { IfOk result (λ found. IfSome found (λ covers. covers.items ≡ covers_by Covering.Reduced self.now.formulas.now state.now.set)) }
        ensures few { IfOk result (λ found. has_few_leaves self.now.formulas.now state.now ≡ is_some found) }
    {
        match covers(alloc, self.formulas, &state.set, Covering::Reduced) {
            Ok(covers) => Ok(Some(covers)),
            Err(fault) => no_covers(fault),
        }
    }
}

/// No covers, where there are too many leaves.
fn no_covers(fault: CoverFault) -> Result<Option<Vec<Cover>>, AllocError>
    ensures none { IfOk result (λ found. is_some found ≡ false) }
    ensures many { IfOk result (λ _. fault ≡ CoverFault.TooManyLeaves) }
{
    match fault {
        CoverFault::TooManyLeaves => Ok(None),
        CoverFault::NoMemory => Err(AllocError),
    }
}

/// The formulas that numbers name, of which the first two are a state's own number and its counter.
fn ids_of(alloc: Global, numbers: &[u32]) -> Result<Vec<FormulaId>, AllocError>
    ensures { IfOk result (λ ids. ids.items ≡ map (λ id. record { 0 = id }) (drop 2 numbers.now)) }
{
    numbers
        .iter()
        .skip(2)
        .map(|number| FormulaId(*number))
        .collect(alloc)
}

/// Whether each id is above the one before it.
fn rises(ids: &[FormulaId]) -> bool
    ensures value { result ≡ rises ids.now }
    ensures rise { OnTrue result (IdsRise ids.now) }
{
    let mut rest = ids;
    while rest.len() > 1 {
        if rest[0].0 >= rest[1].0 {
            return false;
        }
        rest = &rest[1..];
    }
    true
}

/// Whether each of the formulas is among those that occur.
fn occur(occurs: &[bool], ids: &[FormulaId]) -> bool
    ensures { result ≡ list_all (has_id occurs.now) ids.now }
{
    ids.iter().all(|id| has(occurs, *id))
}

fn has(occurs: &[bool], id: FormulaId) -> bool
    ensures { result ≡ has_id occurs.now id }
{
    (id.0 as usize) < occurs.len() && occurs[id.0 as usize]
}
