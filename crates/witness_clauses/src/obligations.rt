//! The base clauses of each obligation.

ghost use Rattle.std.specs.Prelude.{◌≡◌, ◌<◌, ◌≤◌, ◌+◌, ◌^◌, ◌++◌, ◌∷◌, [], map, length, IfOk, OnOk};
ghost use Rattle.truth_witness.specs.Clauses.{base_clauses, opposite};
ghost use Rattle.truth_witness.specs.declared.witnesses.Obligation.TheVariants.{Base, Cover, Fall, Keep};
ghost use Rattle.truth_witness.specs.Falls.{fall};
ghost use Rattle.truth_witness.specs.Variables.{shifted, top_literal};
ghost use Rattle.truth_witness.specs.Obligations.{IsObligationOf, at_start, in_step, next, not_next, now, own, part_at, variables_of};
ghost use Rattle.witness_clauses.specs.Counted.{IsCountable};
ghost use Rattle.truth_witness.specs.Proved.{IsPartFor, IsWitnessFor};

use crate::claims::Claim;
use crate::literals::{Literals, add, opposite};
use crate::making::add_base;
use propositional_logic::Clause;
use std::alloc::{AllocError, Global};
use truth_witness::{Obligation, Part};

impl Claim<'_> {
    /// The base clauses that obligations about the first position share.
    pub fn start_clauses(&self, alloc: Global) -> Result<Vec<Clause>, AllocError>
        requires { IsWitnessFor self.now }
        ensures { IfOk result (λ made. made.items ≡ base_clauses (at_start self.now)) }
    {
        let vars = self.frame_size();
        let frame = self.frame(alloc)?;
        let start = self.start(alloc)?;
        let mut made = Vec::new(alloc);
        add_base(alloc, vars, &frame, &mut made)?;
        add_base(alloc, vars, &start, &mut made)?;
        Ok(made)
    }

    /// The base clauses that obligations about two positions share.
    pub fn step_clauses(&self, alloc: Global) -> Result<Vec<Clause>, AllocError>
        requires { IsWitnessFor self.now }
        ensures { IfOk result (λ made. made.items ≡ base_clauses (in_step self.now)) }
    {
        let vars = 2 * self.frame_size();
        let frame = self.frame(alloc)?;
        let next = self.next_position(alloc, &frame)?;
        let step = self.step(alloc)?;
        let mut made = Vec::new(alloc);
        add_base(alloc, vars, &frame, &mut made)?;
        add_base(alloc, vars, &next, &mut made)?;
        add_base(alloc, vars, &step, &mut made)?;
        Ok(made)
    }

    /// Adds the base clauses that are an obligation's own.
    pub fn add_own(
        &self,
        alloc: Global,
        obligation: Obligation,
        made: &mut Vec<Clause>,
    ) -> Result<(), AllocError>
        requires fits { IsWitnessFor self.now }
        requires owed { IsObligationOf self.now.witness obligation }
        ensures { OnOk result (made.new.items ≡ made.old.items ++ base_clauses (own self.now obligation)) }
    {
        let own = self.own(alloc, obligation)?;
        add_base(alloc, self.variables(obligation), &own, made)
    }

    /// The number of variables of an obligation.
    pub fn variables(&self, obligation: Obligation) -> u32
        requires fits { IsWitnessFor self.now }
        requires owed { IsObligationOf self.now.witness obligation }
        ensures value { result ≡ variables_of self.now obligation }
        ensures small { result ≤ 2 ^ 30 }
        ensures countable { IsCountable self.now }
    {
        let frame = self.frame_size();
        match obligation {
            Obligation::Base | Obligation::Cover | Obligation::Enter(_) => frame,
            Obligation::Keep | Obligation::Stay(_) => 2 * frame,
            Obligation::Fall(place) => self.fall_variables(place),
        }
    }

    fn fall_variables(&self, place: usize) -> u32
        requires fits { IsWitnessFor self.now }
        requires owed { IsObligationOf self.now.witness (Fall place) }
        ensures value { result ≡ variables_of self.now (Fall place) }
        ensures small { result ≤ 2 ^ 30 }
    {
        2 * self.frame_size() + 1 + rank_bits(self.part(place))
    }

    /// The part at a place.
    fn part(&self, place: usize) -> &Part
        requires { place < length self.now.witness.parts }
        ensures { result.now ≡ part_at self.now place }
    {
        let witness = self.claimed.witness;
        &witness.parts[place]
    }

    /// The literal that holds at each position.
    fn always(&self) -> u32
        ensures { result ≡ self.now.witness.always }
    {
        let witness = self.claimed.witness;
        witness.always
    }

    /// The clauses that are an obligation's own.
    fn own(&self, alloc: Global, obligation: Obligation) -> Result<Vec<Literals>, AllocError>
        requires fits { IsWitnessFor self.now }
        requires owed { IsObligationOf self.now.witness obligation }
        ensures { IfOk result (λ clauses. clauses.items ≡ own self.now obligation) }
    {
        match obligation {
            Obligation::Base => self.own_base(alloc),
            Obligation::Keep => self.own_keep(alloc),
            Obligation::Cover => self.own_cover(alloc),
            Obligation::Enter(place) => self.own_enter(alloc, self.part(place)),
            Obligation::Stay(place) => self.own_stay(alloc, self.part(place)),
            Obligation::Fall(place) => self.own_fall(alloc, self.part(place)),
        }
    }

    fn own_base(&self, alloc: Global) -> Result<Vec<Literals>, AllocError>
        ensures { IfOk result (λ clauses. clauses.items ≡ own self.now Base) }
    {
        let mut clauses = Vec::new(alloc);
        add(alloc, &[opposite(self.always())], &mut clauses)?;
        Ok(clauses)
    }

    fn own_keep(&self, alloc: Global) -> Result<Vec<Literals>, AllocError>
        requires { IsWitnessFor self.now }
        ensures { IfOk result (λ clauses. clauses.items ≡ own self.now Keep) }
    {
        let always = self.always();
        let mut clauses = Vec::new(alloc);
        add(alloc, &[always], &mut clauses)?;
        add(alloc, &[opposite(self.of_next(always))], &mut clauses)?;
        Ok(clauses)
    }

    fn own_cover(&self, alloc: Global) -> Result<Vec<Literals>, AllocError>
        ensures { IfOk result (λ clauses. clauses.items ≡ own self.now Cover) }
    {
        let mut clauses = Vec::new(alloc);
        add(alloc, &[self.always()], &mut clauses)?;
        let witness = self.claimed.witness;
        add_not_starts(alloc, &witness.parts, &mut clauses)?;
        Ok(clauses)
    }

    fn own_enter(&self, alloc: Global, part: &Part) -> Result<Vec<Literals>, AllocError>
        ensures { IfOk result (λ clauses. clauses.items ≡ now self.now.witness.always ∷ now part.now.start ∷ now (opposite part.now.inv) ∷ []) }
    {
        let mut clauses = Vec::new(alloc);
        add(alloc, &[self.always()], &mut clauses)?;
        add(alloc, &[part.start], &mut clauses)?;
        add(alloc, &[opposite(part.inv)], &mut clauses)?;
        Ok(clauses)
    }

    fn own_stay(&self, alloc: Global, part: &Part) -> Result<Vec<Literals>, AllocError>
        requires fits { IsWitnessFor self.now }
        requires inv { part.now.inv ≤ top_literal self.now }
        ensures { IfOk result (λ clauses. clauses.items ≡ now self.now.witness.always ∷ next self.now self.now.witness.always ∷ now part.now.inv ∷ not_next self.now part.now.inv ∷ []) }
    {
        let always = self.always();
        let mut clauses = Vec::new(alloc);
        add(alloc, &[always], &mut clauses)?;
        add(alloc, &[self.of_next(always)], &mut clauses)?;
        add(alloc, &[part.inv], &mut clauses)?;
        add(alloc, &[opposite(self.of_next(part.inv))], &mut clauses)?;
        Ok(clauses)
    }

    fn own_fall(&self, alloc: Global, part: &Part) -> Result<Vec<Literals>, AllocError>
        requires fits { IsWitnessFor self.now }
        requires part { IsPartFor self.now part.now }
        ensures { IfOk result (λ clauses. clauses.items ≡ now self.now.witness.always ∷ next self.now self.now.witness.always ∷ now part.now.inv ∷ next self.now part.now.inv ∷ fall self.now part.now) }
    {
        let _frame = self.frame_size();
        let always = self.always();
        let mut clauses = Vec::new(alloc);
        add(alloc, &[always], &mut clauses)?;
        add(alloc, &[self.of_next(always)], &mut clauses)?;
        add(alloc, &[part.inv], &mut clauses)?;
        add(alloc, &[self.of_next(part.inv)], &mut clauses)?;
        self.add_fall(alloc, part, &mut clauses)?;
        Ok(clauses)
    }

    /// The literal of the next position.
    fn of_next(&self, lit: u32) -> u32
        requires { lit ≤ top_literal self.now }
        ensures { result ≡ shifted self.now lit }
    {
        let _frame = self.frame_size();
        self.shifted(lit)
    }
}

/// The number of a part's rank bits.
fn rank_bits(part: &Part) -> u32
    requires { length part.now.rank ≤ 64 }
    ensures { result ≡ length part.now.rank }
{
    part.rank.len() as u32
}

/// The formula comes true at the start in the way of none of these parts.
fn add_not_starts(
    alloc: Global,
    parts: &[Part],
    clauses: &mut Vec<Literals>,
) -> Result<(), AllocError>
    ensures { OnOk result (clauses.new.items ≡ clauses.old.items ++ map (λ part. now (opposite part.start)) parts.now) }
{
    for part in parts {
        add(alloc, &[opposite(part.start)], clauses)?;
    }
    Ok(())
}
