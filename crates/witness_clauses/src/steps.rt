//! What holds of the first position of a run, and of two that follow each other.

ghost use Rattle.std.specs.Prelude.{◌≡◌, ◌≤◌, ◌+◌, ◌^◌, ◌++◌, ◌∷◌, [], map, All, IfOk, OnOk, if◌then◌else◌};
ghost use Rattle.std.specs.List.{flat_map};
ghost use Rattle.ltl_formula.specs.Nodes.{node_at};
ghost use Rattle.truth_witness.specs.Clauses.{equal, opposite};
ghost use Rattle.truth_witness.specs.Variables.{latch_literal, shifted, truth_literal};
ghost use Rattle.truth_witness.specs.Frames.{as_id, node_ahead, numbered, start, step};

use crate::claims::Claim;
use crate::frames::node_at;
use crate::literals::{Literals, add, add_equal, opposite};
use aiger_text::Latch;
use ltl_formula::{FormulaId, Node};
use std::alloc::{AllocError, Global};

impl Claim<'_> {
    /// The clauses of position 0.
    pub(crate) fn start(&self, alloc: Global) -> Result<Vec<Literals>, AllocError>
        ensures { IfOk result (λ clauses. clauses.items ≡ start self.now) }
    {
        let mut clauses = Vec::new(alloc);
        let circuit = self.claimed.circuit;
        add_resets(alloc, &circuit.latches, &mut clauses)?;
        let witness = self.claimed.witness;
        self.add_own_resets(alloc, &witness.latches, &mut clauses)?;
        add(
            alloc,
            &[self.truth_literal(self.claimed.form)],
            &mut clauses,
        )?;
        Ok(clauses)
    }

    /// The witness's latches are false.
    fn add_own_resets(
        &self,
        alloc: Global,
        latches: &[u32],
        clauses: &mut Vec<Literals>,
    ) -> Result<(), AllocError>
        requires { latches.now ≡ self.now.witness.latches }
        ensures { OnOk result (clauses.new.items ≡ clauses.old.items ++ numbered (λ k _. (opposite (latch_literal self.now k) ∷ []) ∷ []) 0 latches.now) }
    {
        for place in 0..latches.len() {
            add(alloc, &[opposite(self.latch_literal(place))], clauses)?;
        }
        Ok(())
    }

    /// The clauses of a position and the next.
    pub(crate) fn step(&self, alloc: Global) -> Result<Vec<Literals>, AllocError>
        ensures { IfOk result (λ clauses. clauses.items ≡ step self.now) }
    {
        let mut clauses = Vec::new(alloc);
        let circuit = self.claimed.circuit;
        self.add_moves(alloc, &circuit.latches, &mut clauses)?;
        self.add_truths_ahead(alloc, &self.ids, &mut clauses)?;
        let witness = self.claimed.witness;
        self.add_own_moves(alloc, &witness.latches, &mut clauses)?;
        Ok(clauses)
    }

    /// Each latch of the circuit has its next value.
    fn add_moves(
        &self,
        alloc: Global,
        latches: &[Latch],
        clauses: &mut Vec<Literals>,
    ) -> Result<(), AllocError>
        requires { All (λ latch. latch.literal ≤ 2 ^ 30) latches.now }
        ensures { OnOk result (clauses.new.items ≡ clauses.old.items ++ flat_map (λ latch. equal (shifted self.now latch.literal) latch.next) latches.now) }
    {
        for latch in latches {
            add_equal(alloc, self.shifted(latch.literal), latch.next, clauses)?;
        }
        Ok(())
    }

    /// What the truth of each id owes to the next position.
    fn add_truths_ahead(
        &self,
        alloc: Global,
        ids: &[u32],
        clauses: &mut Vec<Literals>,
    ) -> Result<(), AllocError>
        ensures { OnOk result (clauses.new.items ≡ clauses.old.items ++ flat_map (λ g. node_ahead self.now (truth_literal self.now (as_id g)) (node_at self.now.nodes g)) ids.now) }
    {
        for id in ids {
            self.add_truth_ahead(alloc, FormulaId(*id), clauses)?;
        }
        Ok(())
    }

    fn add_truth_ahead(
        &self,
        alloc: Global,
        id: FormulaId,
        clauses: &mut Vec<Literals>,
    ) -> Result<(), AllocError>
        ensures { OnOk result (clauses.new.items ≡ clauses.old.items ++ node_ahead self.now (truth_literal self.now id) (node_at self.now.nodes id.0)) }
    {
        let v = self.truth_literal(id);
        match node_at(self.claimed.formulas, id) {
            Node::Next(a) => add_equal(alloc, v, self.shifted(self.truth_literal(a)), clauses),
            Node::Until(a, b) => {
                add_until_ahead(
                    alloc,
                    v,
                    self.truth_literal(a),
                    self.truth_literal(b),
                    self.shifted(v),
                    clauses,
                )
            }
            Node::Release(a, b) => {
                add_release_ahead(
                    alloc,
                    v,
                    self.truth_literal(a),
                    self.truth_literal(b),
                    self.shifted(v),
                    clauses,
                )
            }
            Node::True
            | Node::False
            | Node::Signal(_)
            | Node::Not(_)
            | Node::Finally(_)
            | Node::Globally(_)
            | Node::And(_, _)
            | Node::Or(_, _)
            | Node::Implies(_, _)
            | Node::Equiv(_, _)
            | Node::WeakUntil(_, _) => Ok(()),
        }
    }

    /// Each latch of the witness has its next value.
    fn add_own_moves(
        &self,
        alloc: Global,
        latches: &[u32],
        clauses: &mut Vec<Literals>,
    ) -> Result<(), AllocError>
        requires { latches.now ≡ self.now.witness.latches }
        ensures { OnOk result (clauses.new.items ≡ clauses.old.items ++ numbered (λ k next. equal (shifted self.now (latch_literal self.now k)) next) 0 latches.now) }
    {
        for (place, next) in latches.iter().enumerate() {
            let latch = self.shifted(self.latch_literal(place));
            add_equal(alloc, latch, *next, clauses)?;
        }
        Ok(())
    }

    /// The same clauses of the next position.
    pub(crate) fn next_position(
        &self,
        alloc: Global,
        clauses: &[Literals],
    ) -> Result<Vec<Literals>, AllocError>
        requires { All (All (λ l. l ≤ 2 ^ 30 + 1)) clauses.now }
        ensures { IfOk result (λ next. next.items ≡ map (map (shifted self.now)) clauses.now) }
    {
        let mut next = Vec::with_capacity(alloc, clauses.len())?;
        for clause in clauses {
            next.push(self.next_clause(alloc, clause.lits())?)?;
        }
        Ok(next)
    }

    fn next_clause(&self, alloc: Global, lits: &[u32]) -> Result<Literals, AllocError>
        requires { All (λ l. l ≤ 2 ^ 30 + 1) lits.now }
        ensures { IfOk result (λ clause. clause ≡ map (shifted self.now) lits.now) }
    {
        let mut next = Vec::with_capacity(alloc, lits.len())?;
        for lit in lits {
            next.push(self.shifted(*lit))?;
        }
        Ok(Literals::of(next))
    }
}

/// The circuit's latches have their first values.
fn add_resets(
    alloc: Global,
    latches: &[Latch],
    clauses: &mut Vec<Literals>,
) -> Result<(), AllocError>
    ensures { OnOk result (clauses.new.items ≡ clauses.old.items ++ map (λ latch. (if latch.reset then latch.literal else opposite latch.literal) ∷ []) latches.now) }
{
    for latch in latches {
        add(alloc, &[reset_literal(*latch)], clauses)?;
    }
    Ok(())
}

/// The literal that is true where a latch has its first value.
fn reset_literal(latch: Latch) -> u32
    ensures { result ≡ (if latch.reset then latch.literal else opposite latch.literal) }
{
    if latch.reset {
        latch.literal
    } else {
        opposite(latch.literal)
    }
}

/// What the truth v of `a U b` owes to the next position, where its truth is `next`.
fn add_until_ahead(
    alloc: Global,
    v: u32,
    a: u32,
    b: u32,
    next: u32,
    clauses: &mut Vec<Literals>,
) -> Result<(), AllocError>
    ensures { OnOk result (clauses.new.items ≡ clauses.old.items ++ (opposite v ∷ b ∷ next ∷ []) ∷ (v ∷ opposite a ∷ opposite next ∷ []) ∷ []) }
{
    add(alloc, &[opposite(v), b, next], clauses)?;
    add(alloc, &[v, opposite(a), opposite(next)], clauses)
}

/// What the truth v of `a R b` owes to the next position, where its truth is `next`.
fn add_release_ahead(
    alloc: Global,
    v: u32,
    a: u32,
    b: u32,
    next: u32,
    clauses: &mut Vec<Literals>,
) -> Result<(), AllocError>
    ensures { OnOk result (clauses.new.items ≡ clauses.old.items ++ (opposite v ∷ a ∷ next ∷ []) ∷ (v ∷ opposite b ∷ opposite next ∷ []) ∷ []) }
{
    add(alloc, &[opposite(v), a, next], clauses)?;
    add(alloc, &[v, opposite(b), opposite(next)], clauses)
}
