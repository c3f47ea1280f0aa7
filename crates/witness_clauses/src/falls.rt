//! How a step lets the rank of a part fall, or awaits an until.

ghost use Rattle.std.specs.Prelude.{◌≡◌, ◌≤◌, ◌<◌, ◌+◌, ◌^◌, ◌++◌, ◌∷◌, [], map, take, length, All, IfOk, OnOk, if◌then◌else◌};
ghost use Rattle.std.specs.List.{flat_map};
ghost use Rattle.letters_and_lassos.specs.Signals.{has};
ghost use Rattle.ltl_formula.specs.Nodes.{node_at};
ghost use Rattle.truth_witness.specs.Clauses.{opposite};
ghost use Rattle.truth_witness.specs.Variables.{rise_literal, shifted};
ghost use Rattle.truth_witness.specs.Frames.{numbered};
ghost use Rattle.truth_witness.specs.Falls.{awaited_in, bit_rises, bits_rise, differs, fall, not_awaited, untils};
ghost use Rattle.witness_clauses.specs.Smallness.{IsSmallPart};

use crate::claims::Claim;
use crate::frames::node_at;
use crate::literals::{Literals, add, opposite};
use letters_and_lassos::Letter;
use ltl_formula::{FormulaId, Node};
use std::alloc::{AllocError, Global};
use std::marker::Model;
use truth_witness::Part;

/// An until that occurs: the literals of its own truth and of that of its right part.
#[derive(Drop)]
pub(crate) struct Awaited {
    until: u32,
    right: u32,
}

impl Model for Awaited {
    ghost use Rattle.truth_witness.specs.Falls as meant;

    ghost Value = { meant.Awaited };

    ghost view = { λ a. record { until = a.until; right = a.right } };
}

impl Claim<'_> {
    /// Adds what refutes that the rank of a part falls, or awaits an until.
    pub(crate) fn add_fall(
        &self,
        alloc: Global,
        part: &Part,
        clauses: &mut Vec<Literals>,
    ) -> Result<(), AllocError>
        requires { IsSmallPart part.now }
        ensures { OnOk result (clauses.new.items ≡ clauses.old.items ++ fall self.now part.now) }
    {
        let untils = self.untils(alloc, &self.ids)?;
        let named = first_ones(&untils, part.index.len());
        let rank = &part.rank;
        self.add_not_awaited(alloc, part, named, clauses)?;
        self.add_bits_rise(alloc, rank, clauses)?;
        add(alloc, &[self.rise_literal(rank.len())], clauses)?;
        Ok(())
    }

    /// The untils among ids, in their order.
    fn untils(&self, alloc: Global, ids: &[u32]) -> Result<Vec<Awaited>, AllocError>
        ensures { IfOk result (λ found. found.items ≡ flat_map (λ g. awaited_in self.now g (node_at self.now.nodes g)) ids.now) }
    {
        let mut found = Vec::new(alloc);
        for id in ids {
            self.add_until(FormulaId(*id), &mut found)?;
        }
        Ok(found)
    }

    /// Adds the id where it is an until.
    fn add_until(&self, id: FormulaId, found: &mut Vec<Awaited>) -> Result<(), AllocError>
        ensures { OnOk result (found.new.items ≡ found.old.items ++ awaited_in self.now id.0 (node_at self.now.nodes id.0)) }
    {
        if let Node::Until(_, b) = node_at(self.claimed.formulas, id) {
            found.push(Awaited {
                until: self.truth_literal(id),
                right: self.truth_literal(b),
            })?;
        }
        Ok(())
    }

    /// No until of these is awaited where the lowest 0 bits rise.
    fn add_not_awaited(
        &self,
        alloc: Global,
        part: &Part,
        untils: &[Awaited],
        clauses: &mut Vec<Literals>,
    ) -> Result<(), AllocError>
        requires { IsSmallPart part.now }
        ensures { OnOk result (clauses.new.items ≡ clauses.old.items ++ numbered (λ j u. (opposite (rise_literal self.now 0) ∷ not_awaited self.now part.now j u) ∷ []) 0 untils.now) }
    {
        for (number, until) in untils.iter().enumerate() {
            self.add_one_not_awaited(alloc, part, number as u64, until, clauses)?;
        }
        Ok(())
    }

    fn add_one_not_awaited(
        &self,
        alloc: Global,
        part: &Part,
        number: u64,
        until: &Awaited,
        clauses: &mut Vec<Literals>,
    ) -> Result<(), AllocError>
        requires { IsSmallPart part.now }
        ensures { OnOk result (clauses.new.items ≡ clauses.old.items ++ (opposite (rise_literal self.now 0) ∷ not_awaited self.now part.now number until.now) ∷ []) }
    {
        let clause = self.not_awaited(alloc, part, number, until)?;
        clauses.push(Literals::of(clause))?;
        Ok(())
    }

    /// The lowest 0 bits don't rise, or this until isn't awaited.
    fn not_awaited(
        &self,
        alloc: Global,
        part: &Part,
        number: u64,
        until: &Awaited,
    ) -> Result<Vec<u32>, AllocError>
        requires { IsSmallPart part.now }
        ensures { IfOk result (λ lits. lits.items ≡ opposite (rise_literal self.now 0) ∷ not_awaited self.now part.now number until.now) }
    {
        let index = &part.index;
        let mut lits = Vec::new(alloc);
        lits.push(opposite(self.rise_literal(0)))?;
        push_differs(index, number, &mut lits)?;
        self.push_differs_next(index, number, &mut lits)?;
        lits.push(opposite(until.until))?;
        lits.push(until.right)?;
        Ok(lits)
    }

    /// The bits of the next position aren't those of the number.
    fn push_differs_next(
        &self,
        bits: &[u32],
        number: u64,
        lits: &mut Vec<u32>,
    ) -> Result<(), AllocError>
        requires small { All (λ l. l ≤ 2 ^ 30 + 1) bits.now }
        requires few { length bits.now ≤ 14 }
        ensures { OnOk result (lits.new.items ≡ lits.old.items ++ map (shifted self.now) (differs number bits.now)) }
    {
        for (place, bit) in bits.iter().enumerate() {
            let lit = bit_literal(*bit, number, bits.len() - 1 - place);
            lits.push(self.shifted(lit))?;
        }
        Ok(())
    }

    /// Of each bit, from the lowest on: if it and those below rise or stay, so do the lower ones.
    fn add_bits_rise(
        &self,
        alloc: Global,
        bits: &[u32],
        clauses: &mut Vec<Literals>,
    ) -> Result<(), AllocError>
        requires small { All (λ l. l ≤ 2 ^ 30 + 1) bits.now }
        requires few { length bits.now ≤ 64 }
        ensures { OnOk result (clauses.new.items ≡ clauses.old.items ++ bits_rise self.now bits.now) }
    {
        for place in (0..bits.len()).rev() {
            self.add_bit_rises(alloc, bits.len() - 1 - place, bits[place], clauses)?;
        }
        Ok(())
    }

    /// The clauses of the bit above so many lowest ones.
    fn add_bit_rises(
        &self,
        alloc: Global,
        below: usize,
        bit: u32,
        clauses: &mut Vec<Literals>,
    ) -> Result<(), AllocError>
        requires few { below < 64 }
        requires small { bit ≤ 2 ^ 30 + 1 }
        ensures { OnOk result (clauses.new.items ≡ clauses.old.items ++ bit_rises self.now below bit) }
    {
        let rise = self.rise_literal(below + 1);
        let lower = self.rise_literal(below);
        let next = self.shifted(bit);
        add(alloc, &[opposite(rise), next, opposite(bit)], clauses)?;
        add(alloc, &[opposite(rise), next, lower], clauses)?;
        add(alloc, &[opposite(rise), opposite(bit), lower], clauses)
    }
}

/// The bits aren't those of the number.
fn push_differs(bits: &[u32], number: u64, lits: &mut Vec<u32>) -> Result<(), AllocError>
    requires few { length bits.now ≤ 14 }
    ensures { OnOk result (lits.new.items ≡ lits.old.items ++ differs number bits.now) }
{
    for (place, bit) in bits.iter().enumerate() {
        lits.push(bit_literal(*bit, number, bits.len() - 1 - place))?;
    }
    Ok(())
}

/// The literal that says that a bit isn't the number's bit at this place.
fn bit_literal(bit: u32, number: u64, place: usize) -> u32
    requires few { place < 14 }
    ensures value { result ≡ (if has number place then opposite bit else bit) }
    ensures small { bit ≤ 2 ^ 30 + 1 → result ≤ 2 ^ 30 + 1 }
{
    if Letter(number).has(place as u32) {
        opposite(bit)
    } else {
        bit
    }
}

/// As many untils as numbers of so many bits name.
fn first_ones(untils: &[Awaited], bits: usize) -> &[Awaited]
    requires { bits ≤ 14 }
    ensures { result.now ≡ take (2 ^ bits) untils.now }
{
    let count = 1usize << bits;
    &untils[..count.min(untils.len())]
}
