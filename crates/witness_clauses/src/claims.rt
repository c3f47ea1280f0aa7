//! What is claimed, and the literals of a frame.

ghost use Rattle.std.specs.Prelude.{◌≡◌, ◌≤◌, ◌<◌, ◌+◌, ◌*◌, ◌^◌, ◌++◌, IfOk, length, slice_index_or};
ghost use Rattle.truth_witness.specs.Variables.{frame_size, gate_literal, latch_literal, rise_literal, shifted, signal_literal, top_literal, truth_literal};
ghost use Rattle.witness_clauses.specs.Counted.{IsCountable, claim_of};

use crate::ids::{occurring, place_of};
use aiger_text::Circuit;
use letters_and_lassos::Side;
use ltl_formula::{FormulaId, Formulas};
use std::alloc::{AllocError, Global};
use std::marker::Model;
use truth_witness::Witness;

/// That a formula is true on no run lasso of a circuit that plays the side, and the witness for it.
#[derive(Clone, Copy)]
pub struct Claimed<'a> {
    pub side: Side,
    pub circuit: &'a Circuit,
    /// A list in which the form stands.
    pub formulas: &'a Formulas,
    pub form: FormulaId,
    pub witness: &'a Witness,
}

/// A claim whose variables are numbered, made once for all obligations. Seen by contracts as the claim.
#[derive(Drop)]
pub struct Claim<'a> {
    pub(crate) claimed: Claimed<'a>,
    /// The ids that occur in the form, rising.
    pub(crate) ids: Vec<u32>,
    ids_end: u32,
    latches_end: u32,
    frame: u32,
}

impl<'a> Model for Claim<'a> {
    ghost use Rattle.truth_witness.specs.Witness as meant;
    ghost use Rattle.witness_clauses.specs.Counted.{IsCounted, claim_of};

    ghost Value = { meant.Claim };

    ghost view = { λ c. claim_of c.claimed };

    ghost invariant = { λ c. IsCounted (claim_of c.claimed) c.ids.items c.ids_end c.latches_end c.frame };
}

impl<'a> Claim<'a> {
    /// Numbers the variables of a claim. Costs a pass over the list of formulas.
    pub fn new(alloc: Global, claimed: Claimed<'a>) -> Result<Claim<'a>, AllocError>
        requires { IsCountable (claim_of claimed) }
        ensures { IfOk result (λ claim. claim ≡ claim_of claimed.entry) }
    {
        let ids = occurring(alloc, claimed.formulas, claimed.form)?;
        let circuit = claimed.circuit;
        let witness = claimed.witness;
        let ids_end = circuit.variables + ids.len() as u32;
        let latches_end = ids_end + witness.latches.len() as u32;
        let frame = latches_end + witness.gates.len() as u32;
        Ok(Claim {
            claimed,
            ids,
            ids_end,
            latches_end,
            frame,
        })
    }

    /// The witness.
    pub fn witness(&self) -> &Witness
        ensures value { result.now ≡ self.now.witness }
        ensures countable { IsCountable self.now }
    {
        self.claimed.witness
    }

    /// The number of variables of a frame.
    pub fn frame_size(&self) -> u32
        ensures value { result ≡ frame_size self.now }
        ensures countable { IsCountable self.now }
    {
        self.frame
    }

    /// The greatest literal of a frame.
    pub fn top_literal(&self) -> u32
        ensures value { result ≡ top_literal self.now }
        ensures countable { IsCountable self.now }
    {
        2 * self.frame + 1
    }

    /// The literal of the witness's gate with this number.
    pub fn gate_literal(&self, place: usize) -> u32
        requires { place < length self.now.witness.gates }
        ensures { result ≡ gate_literal self.now place }
    {
        2 * (self.latches_end + 1 + place as u32)
    }

    /// The literal of the witness's latch with this number.
    pub(crate) fn latch_literal(&self, place: usize) -> u32
        requires { place < length self.now.witness.latches }
        ensures value { result ≡ latch_literal self.now place }
        ensures small { result ≤ 2 ^ 30 }
    {
        2 * (self.ids_end + 1 + place as u32)
    }

    /// The literal that says that the formula of an id is true.
    pub(crate) fn truth_literal(&self, id: FormulaId) -> u32
        ensures value { result ≡ truth_literal self.now id }
        ensures small { result ≤ 2 ^ 30 }
    {
        let circuit = self.claimed.circuit;
        2 * (circuit.variables + 1 + place_of(&self.ids, id.0) as u32)
    }

    /// The literal of a signal.
    pub(crate) fn signal_literal(&self, signal: u32) -> u32
        ensures { result ≡ signal_literal self.now signal }
    {
        let circuit = self.claimed.circuit;
        match self.claimed.side {
            Side::System => literal_at(&circuit.inputs, &circuit.outputs, signal as usize),
            Side::Environment => literal_at(&circuit.outputs, &circuit.inputs, signal as usize),
        }
    }

    /// The literal of the next position.
    pub(crate) fn shifted(&self, lit: u32) -> u32
        requires { lit ≤ 2 ^ 30 + 1 }
        ensures { result ≡ shifted self.now lit }
    {
        if lit < 2 { lit } else { lit + 2 * self.frame }
    }

    /// The literal that compares ranks by their lowest bits, so many of them.
    pub(crate) fn rise_literal(&self, bits: usize) -> u32
        requires { bits ≤ 64 }
        ensures { result ≡ rise_literal self.now bits }
    {
        2 * (2 * self.frame + 1 + bits as u32)
    }
}

/// The literal at a place of two lists, one behind the other, or 0 past their end.
fn literal_at(first: &[u32], second: &[u32], place: usize) -> u32
    ensures { result ≡ slice_index_or (first.now ++ second.now) place 0 }
{
    match first.get(place) {
        Some(lit) => *lit,
        None => second.get(place - first.len()).copied().unwrap_or(0),
    }
}
