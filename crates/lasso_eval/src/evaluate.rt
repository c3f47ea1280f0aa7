ghost use Rattle.std.specs.Prelude.{◌≡◌, ◌<◌, [], IfOk, length, slice_index_or};
ghost use Rattle.letters_and_lassos.specs.Word.{lasso_len};
ghost use Rattle.ltl_formula.specs.Nodes.{IsNodeIn, tree_at};
ghost use Rattle.ltl_formula.specs.Truth.{holds};
ghost use Rattle.lasso_eval.specs.Rows.{IsRow, IsTable};

use crate::rows::{Pairing, Row};
use letters_and_lassos::Lasso;
use ltl_formula::{FormulaId, Formulas, Node};
use std::alloc::{AllocError, Global};

/// Whether the formula holds at position `i` of the lasso. It takes time and memory in proportion to the nodes
/// up to `f`, times the lasso's positions.
pub fn holds_at(
    alloc: Global,
    formulas: &Formulas,
    f: FormulaId,
    lasso: &Lasso,
    i: usize,
) -> Result<bool, AllocError>
    requires stands { IsNodeIn formulas.now f }
    requires position { i < lasso_len lasso.now }
    ensures { IfOk result (λ truth. truth ≡ holds lasso.now (tree_at formulas.now f) i) }
{
    let mut rows = Vec::with_capacity(alloc, f.0 as usize + 1)?;
    for place in 0..=f.0 {
        let row = row_of(alloc, formulas, FormulaId(place), lasso, &rows)?;
        rows.push(row)?;
    }
    let row = &rows[f.0 as usize];
    Ok(row.at(i))
}

/// The row of a node, from those of the nodes before it.
fn row_of(
    alloc: Global,
    formulas: &Formulas,
    f: FormulaId,
    lasso: &Lasso,
    rows: &[Row],
) -> Result<Row, AllocError>
    requires stands { IsNodeIn formulas.now f }
    requires before { length rows.now ≡ f.0 }
    requires table { IsTable lasso.now formulas.now rows.now }
    ensures { IfOk result (λ row. IsRow (lasso_len lasso.now) (holds lasso.now (tree_at formulas.now f)) row) }
{
    let len = lasso.len();
    match formulas.node(f) {
        Node::True => Row::constant(alloc, len, true),
        Node::False => Row::constant(alloc, len, false),
        Node::Signal(signal) => Row::signal(alloc, lasso, signal),
        Node::Not(a) => part(rows, a).opposite(alloc),
        Node::Next(a) => part(rows, a).next(alloc, lasso),
        Node::Finally(a) => part(rows, a).finally(alloc, lasso),
        Node::Globally(a) => part(rows, a).globally(alloc, lasso),
        Node::And(a, b) => part(rows, a).paired(alloc, Pairing::And, part(rows, b)),
        Node::Or(a, b) => part(rows, a).paired(alloc, Pairing::Or, part(rows, b)),
        Node::Implies(a, b) => part(rows, a).paired(alloc, Pairing::Implies, part(rows, b)),
        Node::Equiv(a, b) => part(rows, a).paired(alloc, Pairing::Equiv, part(rows, b)),
        Node::Until(a, b) => part(rows, a).until(alloc, lasso, part(rows, b)),
        Node::Release(a, b) => part(rows, a).release(alloc, lasso, part(rows, b)),
        Node::WeakUntil(a, b) => part(rows, a).weak_until(alloc, lasso, part(rows, b)),
    }
}

/// The row of a part.
fn part(rows: &[Row], id: FormulaId) -> &Row
    requires { id.0 < length rows.now }
    ensures { result.now ≡ slice_index_or rows.now id.0 [] }
{
    &rows[id.0 as usize]
}
