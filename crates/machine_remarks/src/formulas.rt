//! Formulas over the sections of a text.

ghost use Rattle.std.specs.Prelude.{IfOk, OnOk};
ghost use Rattle.ltl_formula.specs.Nodes.{IsNodeIn};

use crate::silence::Silence;
use ltl_formula::{FormulaId, Formulas, Node};
use text_limits::LARGE_LIMITS;

/// The most nodes of a list.
pub(crate) const MOST_NODES: usize = LARGE_LIMITS.nodes;

/// The formula of a node. Its parts stand in the list.
pub(crate) fn add(formulas: &mut Formulas, node: Node) -> Result<FormulaId, Silence> {
    if !formulas.can_add(node) {
        return Err(Silence::Unknown);
    }
    Ok(formulas.add(MOST_NODES, node)?)
}

/// The formulas of a section, all together; without any it is true.
pub(crate) fn joined(formulas: &mut Formulas, section: &[FormulaId]) -> Result<FormulaId, Silence> {
    let mut whole = add(formulas, Node::True)?;
    for part in section {
        whole = add(formulas, Node::And(whole, *part))?;
    }
    Ok(whole)
}

/// `first && G always && last`, for the formulas of three sections.
pub(crate) fn promised(
    formulas: &mut Formulas,
    first: &[FormulaId],
    always: &[FormulaId],
    last: &[FormulaId],
) -> Result<FormulaId, Silence> {
    let first = joined(formulas, first)?;
    let always = joined(formulas, always)?;
    let always = add(formulas, Node::Globally(always))?;
    let last = joined(formulas, last)?;
    let both = add(formulas, Node::And(first, always))?;
    add(formulas, Node::And(both, last))
}
