//! Formulas of one list put into another, each with its parts from left to right before it.

ghost use Rattle.std.specs.Prelude.{◌≡◌, All, IfOk, OnOk, length, map};
ghost use Rattle.ltl_formula.specs.Nodes.{IsNodeIn, tree_at};
ghost use Rattle.tlsf_values.specs.Results.{IsOutcome, IsOutcomeAs};
ghost use Rattle.unrealizable_core.specs.Copies.{AreCopies, pair_put, parts_put};
ghost use Rattle.unrealizable_core.specs.Put.{put, put_all};

use ltl_formula::{FormulaId, Formulas, Node};
use spec_faults::SpecFault;
use std::alloc::Global;
use tlsf_values::Work;

/// The parts of an operator that has two.
struct Pair {
    left: FormulaId,
    right: FormulaId,
}

/// The copies of formulas, in their order. For each node of `from` its copy is known once it has one, so each is put once.
pub(crate) fn put_all(
    alloc: Global,
    from: &Formulas,
    ids: &[FormulaId],
    known: &mut [Option<FormulaId>],
    work: &mut Work,
) -> Result<Vec<FormulaId>, SpecFault>
    requires stand { All (IsNodeIn from.now) ids.now }
    requires copies { AreCopies from.now known.old work.old.formulas }
    requires room { length known.old ≡ length from.now }
    ensures value { IsOutcomeAs (λ put. put.items) result work.new (put_all (map (tree_at from.now) ids.now) work.old) }
    ensures copies { OnOk result (AreCopies from.now known.new work.new.formulas) }
{
    let mut copies = Vec::new(alloc);
    for id in ids {
        copies.push(put(from, *id, known, work)?)?;
    }
    Ok(copies)
}

/// The copy of a formula. It takes a step for each node that has none yet.
#[cycle(puts)]
fn put(
    from: &Formulas,
    id: FormulaId,
    known: &mut [Option<FormulaId>],
    work: &mut Work,
) -> Result<FormulaId, SpecFault>
    requires stands { IsNodeIn from.now id }
    requires copies { AreCopies from.now known.old work.old.formulas }
    requires room { length known.old ≡ length from.now }
    ensures value { IsOutcome result work.new (put (tree_at from.now id) work.old) }
    ensures copies { OnOk result (AreCopies from.now known.new work.new.formulas) }
{
    let place = id.0 as usize;
    if let Some(copy) = known[place] {
        return Ok(copy);
    }
    let node = put_parts(from, id, known, work)?;
    let copy = work.made(0, node)?;
    known[place] = Some(copy);
    Ok(copy)
}

/// The node of a formula over the copies of its parts.
#[cycle(puts)]
fn put_parts(
    from: &Formulas,
    id: FormulaId,
    known: &mut [Option<FormulaId>],
    work: &mut Work,
) -> Result<Node, SpecFault>
    requires stands { IsNodeIn from.now id }
    requires copies { AreCopies from.now known.old work.old.formulas }
    requires room { length known.old ≡ length from.now }
    ensures value { IsOutcome result work.new (parts_put (tree_at from.now id) work.old) }
    ensures copies { OnOk result (AreCopies from.now known.new work.new.formulas) }
{
    match from.node(id) {
        Node::True => Ok(Node::True),
        Node::False => Ok(Node::False),
        Node::Signal(signal) => Ok(Node::Signal(signal)),
        Node::Not(a) => Ok(Node::Not(put(from, a, known, work)?)),
        Node::Next(a) => Ok(Node::Next(put(from, a, known, work)?)),
        Node::Finally(a) => Ok(Node::Finally(put(from, a, known, work)?)),
        Node::Globally(a) => Ok(Node::Globally(put(from, a, known, work)?)),
        Node::And(a, b) => {
            let Pair { left, right } = put_pair(from, a, b, known, work)?;
            Ok(Node::And(left, right))
        }
        Node::Or(a, b) => {
            let Pair { left, right } = put_pair(from, a, b, known, work)?;
            Ok(Node::Or(left, right))
        }
        Node::Implies(a, b) => {
            let Pair { left, right } = put_pair(from, a, b, known, work)?;
            Ok(Node::Implies(left, right))
        }
        Node::Equiv(a, b) => {
            let Pair { left, right } = put_pair(from, a, b, known, work)?;
            Ok(Node::Equiv(left, right))
        }
        Node::Until(a, b) => {
            let Pair { left, right } = put_pair(from, a, b, known, work)?;
            Ok(Node::Until(left, right))
        }
        Node::Release(a, b) => {
            let Pair { left, right } = put_pair(from, a, b, known, work)?;
            Ok(Node::Release(left, right))
        }
        Node::WeakUntil(a, b) => {
            let Pair { left, right } = put_pair(from, a, b, known, work)?;
            Ok(Node::WeakUntil(left, right))
        }
    }
}

/// The copies of two parts, the left one first.
#[cycle(puts)]
fn put_pair(
    from: &Formulas,
    left: FormulaId,
    right: FormulaId,
    known: &mut [Option<FormulaId>],
    work: &mut Work,
) -> Result<Pair, SpecFault>
    requires left_stands { IsNodeIn from.now left }
    requires right_stands { IsNodeIn from.now right }
    requires copies { AreCopies from.now known.old work.old.formulas }
    requires room { length known.old ≡ length from.now }
    ensures value { IsOutcome result work.new (pair_put (put (tree_at from.now left) work.old) (put (tree_at from.now right))) }
    ensures copies { OnOk result (AreCopies from.now known.new work.new.formulas) }
{
    let left = put(from, left, known, work)?;
    let right = put(from, right, known, work)?;
    Ok(Pair { left, right })
}
