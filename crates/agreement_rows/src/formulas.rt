//! Formulas and lassos that are drawn.
ghost use Rattle.std.specs.Prelude.{IfOk};
ghost use Rattle.ltl_formula.specs.Nodes.{IsNodeIn};

use anyhow::{Context, bail};
use letters_and_lassos::{Lasso, Letter};
use ltl_formula::{FormulaId, Formulas, Node};
use rand_core::utils::NextWord;
use rand_pcg::Pcg32;
use std::alloc::Global;
use text_limits::SMALL_LIMITS;

/// How many nodes are drawn for a formula.
const NODES: u32 = 7;

/// The node of an operator over these parts.
fn node_of(operator: u32, a: FormulaId, b: FormulaId) -> Node {
    match operator {
        0 => Node::Not(a),
        1 => Node::Next(a),
        2 => Node::Finally(a),
        3 => Node::Globally(a),
        4 => Node::And(a, b),
        5 => Node::Or(a, b),
        6 => Node::Implies(a, b),
        7 => Node::Equiv(a, b),
        8 => Node::Until(a, b),
        9 => Node::Release(a, b),
        _ => Node::WeakUntil(a, b),
    }
}

fn add(formulas: &mut Formulas, node: Node) -> anyhow::Result<FormulaId>
    ensures { IfOk result (λ id. IsNodeIn formulas.new id) }
{
    if !formulas.can_add(node) {
        bail!("a part is missing");
    }
    formulas
        .add(SMALL_LIMITS.nodes, node)
        .ok()
        .context("no room for a node")
}

/// A node that is drawn, whose first part is among those made last.
fn add_drawn(
    formulas: &mut Formulas,
    random: &mut Pcg32,
    last: FormulaId,
) -> anyhow::Result<FormulaId>
    ensures { IfOk result (λ id. IsNodeIn formulas.new id) }
{
    let near = random.next_word() % 3;
    let far = random.next_word();
    let a = FormulaId(last.0.saturating_sub(near));
    let b = FormulaId(far % last.0.saturating_add(1));
    add(formulas, node_of(random.next_word() % 11, a, b))
}

/// A formula over two signals.
pub(crate) fn random_formula(
    formulas: &mut Formulas,
    random: &mut Pcg32,
) -> anyhow::Result<FormulaId>
    ensures { IfOk result (λ id. IsNodeIn formulas.new id) }
{
    add(formulas, Node::Signal(0))?;
    let mut last = add(formulas, Node::Signal(1))?;
    for _ in 1..NODES {
        last = add_drawn(formulas, random, last)?;
    }
    add_drawn(formulas, random, last)
}

/// A lasso over two signals, of a stem of at most two letters and a ring of at most three.
pub(crate) fn random_lasso(alloc: Global, random: &mut Pcg32) -> anyhow::Result<Lasso> {
    let stem = random_letters(alloc, random, 0)?;
    let ring = random_letters(alloc, random, 1)?;
    Lasso::new(stem, ring).ok().context("no ring")
}

/// So many letters, and up to two more.
fn random_letters(alloc: Global, random: &mut Pcg32, least: u32) -> anyhow::Result<Vec<Letter>> {
    let mut letters = Vec::new(alloc);
    let more = random.next_word() % 3;
    for _ in 0..least.saturating_add(more) {
        letters.push(Letter(u64::from(random.next_word() % 4)))?;
    }
    Ok(letters)
}
