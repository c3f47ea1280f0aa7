//! Which formulas of a list occur in one of them.

ghost use Rattle.std.specs.Prelude.{◌≡◌, ◌<◌, ◌≤◌, ◌∷◌, [], IfOk, length};
ghost use Rattle.ltl_formula.specs.Nodes.{IsNodeIn, PartsBelow};
ghost use Rattle.truth_witness.specs.Variables.{occurring, parts_of, place_of};
ghost use Rattle.witness_clauses.specs.Marks.{AddsMarks};

use ltl_formula::{FormulaId, Formulas, Node};
use std::alloc::{AllocError, Global};

/// The ids that occur in a formula, rising: its own, and parts of what occurs. Costs a pass over the list.
pub fn occurring(
    alloc: Global,
    formulas: &Formulas,
    form: FormulaId,
) -> Result<Vec<u32>, AllocError>
    requires { IsNodeIn formulas.now form }
    ensures { IfOk result (λ ids. ids.items ≡ occurring formulas.now form) }
{
    let mut ids = Vec::new(alloc);
    let mut marks = vec![in alloc; false; formulas.len()]?;
    ids.push(form.0)?;
    mark_parts(&mut marks, formulas.node(form));
    for id in (0..form.0).rev() {
        if marks[id as usize] {
            ids.push(id)?;
            mark_parts(&mut marks, formulas.node(FormulaId(id)));
        }
    }
    ids.reverse();
    Ok(ids)
}

/// Marks the parts of a node.
fn mark_parts(marks: &mut Vec<bool>, node: Node)
    requires { PartsBelow (length marks.old.items) node }
    ensures { AddsMarks marks.old.items marks.new.items (parts_of node) }
{
    match node {
        Node::True | Node::False | Node::Signal(_) => {}
        Node::Not(a) | Node::Next(a) | Node::Finally(a) | Node::Globally(a) => mark(marks, a),
        Node::And(a, b)
        | Node::Or(a, b)
        | Node::Implies(a, b)
        | Node::Equiv(a, b)
        | Node::Until(a, b)
        | Node::Release(a, b)
        | Node::WeakUntil(a, b) => mark_both(marks, a, b),
    }
}

fn mark_both(marks: &mut Vec<bool>, a: FormulaId, b: FormulaId)
    requires a { a.0 < length marks.old.items }
    requires b { b.0 < length marks.old.items }
    ensures { AddsMarks marks.old.items marks.new.items (a.0 ∷ b.0 ∷ []) }
{
    mark(marks, b);
    mark(marks, a);
}

fn mark(marks: &mut Vec<bool>, id: FormulaId)
    requires { id.0 < length marks.old.items }
    ensures { AddsMarks marks.old.items marks.new.items (id.0 ∷ []) }
{
    marks[id.0 as usize] = true;
}

/// How many of the ids stand before this one.
pub(crate) fn place_of(ids: &[u32], id: u32) -> usize
    ensures place { result ≡ place_of id ids.now }
    ensures small { result ≤ length ids.now }
{
    for (place, other) in ids.iter().enumerate() {
        if *other == id {
            return place;
        }
    }
    ids.len()
}
