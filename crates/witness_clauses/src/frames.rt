//! What holds of one position of a run, of the first, and of two that follow each other.

ghost use Rattle.std.specs.Prelude.{◌≡◌, ◌++◌, ◌∷◌, [], IfOk, OnOk};
ghost use Rattle.std.specs.List.{flat_map};
ghost use Rattle.ltl_formula.specs.Nodes.{node_at};
ghost use Rattle.truth_witness.specs.Clauses.{conjoined, opposite};
ghost use Rattle.truth_witness.specs.Variables.{gate_literal, truth_literal};
ghost use Rattle.truth_witness.specs.Frames.{as_id, frame, node_here, numbered};

use crate::claims::Claim;
use crate::literals::{Literals, add, add_conjoined, add_equal, opposite};
use aiger_text::Gate;
use ltl_formula::{FormulaId, Formulas, Node};
use std::alloc::{AllocError, Global};
use truth_witness::Operands;

impl Claim<'_> {
    /// The clauses of a position.
    pub(crate) fn frame(&self, alloc: Global) -> Result<Vec<Literals>, AllocError>
        ensures { IfOk result (λ clauses. clauses.items ≡ frame self.now) }
    {
        let mut clauses = Vec::new(alloc);
        let circuit = self.claimed.circuit;
        add_gates(alloc, &circuit.gates, &mut clauses)?;
        self.add_truths(alloc, &self.ids, &mut clauses)?;
        let witness = self.claimed.witness;
        self.add_own_gates(alloc, &witness.gates, &mut clauses)?;
        Ok(clauses)
    }

    /// What the truth of each id owes to its own position.
    fn add_truths(
        &self,
        alloc: Global,
        ids: &[u32],
        clauses: &mut Vec<Literals>,
    ) -> Result<(), AllocError>
        ensures { OnOk result (clauses.new.items ≡ clauses.old.items ++ flat_map (λ g. node_here self.now (truth_literal self.now (as_id g)) (node_at self.now.nodes g)) ids.now) }
    {
        for id in ids {
            self.add_truth(alloc, FormulaId(*id), clauses)?;
        }
        Ok(())
    }

    fn add_truth(
        &self,
        alloc: Global,
        id: FormulaId,
        clauses: &mut Vec<Literals>,
    ) -> Result<(), AllocError>
        ensures { OnOk result (clauses.new.items ≡ clauses.old.items ++ node_here self.now (truth_literal self.now id) (node_at self.now.nodes id.0)) }
    {
        let node = node_at(self.claimed.formulas, id);
        self.add_node_here(alloc, self.truth_literal(id), node, clauses)
    }

    /// What the truth v of a node owes to its own position.
    fn add_node_here(
        &self,
        alloc: Global,
        v: u32,
        node: Node,
        clauses: &mut Vec<Literals>,
    ) -> Result<(), AllocError>
        ensures { OnOk result (clauses.new.items ≡ clauses.old.items ++ node_here self.now v node) }
    {
        match node {
            Node::True => add(alloc, &[v], clauses),
            Node::False => add(alloc, &[opposite(v)], clauses),
            Node::Signal(signal) => add_equal(alloc, v, self.signal_literal(signal), clauses),
            Node::Not(a) => add_equal(alloc, v, opposite(self.truth_literal(a)), clauses),
            Node::And(a, b) => {
                add_conjoined(
                    alloc,
                    v,
                    self.truth_literal(a),
                    self.truth_literal(b),
                    clauses,
                )
            }
            Node::Or(a, b) => {
                add_or_here(
                    alloc,
                    v,
                    self.truth_literal(a),
                    self.truth_literal(b),
                    clauses,
                )
            }
            Node::Until(a, b) => {
                add_until_here(
                    alloc,
                    v,
                    self.truth_literal(a),
                    self.truth_literal(b),
                    clauses,
                )
            }
            Node::Release(a, b) => {
                add_release_here(
                    alloc,
                    v,
                    self.truth_literal(a),
                    self.truth_literal(b),
                    clauses,
                )
            }
            Node::Next(_)
            | Node::Finally(_)
            | Node::Globally(_)
            | Node::Implies(_, _)
            | Node::Equiv(_, _)
            | Node::WeakUntil(_, _) => Ok(()),
        }
    }

    /// The witness's gates are as written.
    fn add_own_gates(
        &self,
        alloc: Global,
        gates: &[Operands],
        clauses: &mut Vec<Literals>,
    ) -> Result<(), AllocError>
        requires { gates.now ≡ self.now.witness.gates }
        ensures { OnOk result (clauses.new.items ≡ clauses.old.items ++ numbered (λ k operands. conjoined (gate_literal self.now k) operands.left operands.right) 0 gates.now) }
    {
        for (place, operands) in gates.iter().enumerate() {
            let gate = self.gate_literal(place);
            add_conjoined(alloc, gate, operands.left, operands.right, clauses)?;
        }
        Ok(())
    }
}

/// The node of an id, and `False` past the end.
pub(crate) fn node_at(formulas: &Formulas, id: FormulaId) -> Node
    ensures { result ≡ node_at formulas.now id.0 }
{
    if (id.0 as usize) < formulas.len() {
        formulas.node(id)
    } else {
        Node::False
    }
}

/// Each gate of a circuit is as written.
fn add_gates(alloc: Global, gates: &[Gate], clauses: &mut Vec<Literals>) -> Result<(), AllocError>
    ensures { OnOk result (clauses.new.items ≡ clauses.old.items ++ flat_map (λ gate. conjoined gate.literal gate.left gate.right) gates.now) }
{
    for gate in gates {
        add_conjoined(alloc, gate.literal, gate.left, gate.right, clauses)?;
    }
    Ok(())
}

/// The truth v of a disjunction of a and b.
fn add_or_here(
    alloc: Global,
    v: u32,
    a: u32,
    b: u32,
    clauses: &mut Vec<Literals>,
) -> Result<(), AllocError>
    ensures { OnOk result (clauses.new.items ≡ clauses.old.items ++ (v ∷ opposite a ∷ []) ∷ (v ∷ opposite b ∷ []) ∷ (opposite v ∷ a ∷ b ∷ []) ∷ []) }
{
    add(alloc, &[v, opposite(a)], clauses)?;
    add(alloc, &[v, opposite(b)], clauses)?;
    add(alloc, &[opposite(v), a, b], clauses)
}

/// What the truth v of `a U b` owes to its own position.
fn add_until_here(
    alloc: Global,
    v: u32,
    a: u32,
    b: u32,
    clauses: &mut Vec<Literals>,
) -> Result<(), AllocError>
    ensures { OnOk result (clauses.new.items ≡ clauses.old.items ++ (v ∷ opposite b ∷ []) ∷ (opposite v ∷ a ∷ b ∷ []) ∷ []) }
{
    add(alloc, &[v, opposite(b)], clauses)?;
    add(alloc, &[opposite(v), a, b], clauses)
}

/// What the truth v of `a R b` owes to its own position.
fn add_release_here(
    alloc: Global,
    v: u32,
    a: u32,
    b: u32,
    clauses: &mut Vec<Literals>,
) -> Result<(), AllocError>
    ensures { OnOk result (clauses.new.items ≡ clauses.old.items ++ (opposite v ∷ b ∷ []) ∷ (v ∷ opposite a ∷ opposite b ∷ []) ∷ []) }
{
    add(alloc, &[opposite(v), b], clauses)?;
    add(alloc, &[v, opposite(a), opposite(b)], clauses)
}
