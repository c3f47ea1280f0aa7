ghost use Rattle.std.specs.Prelude.{◌≡◌, ◌<◌, ◌≤◌, ◌++◌, codes, length, vec_len, IfOk, OnOk, OnErr};
ghost use Rattle.ltl_formula.specs.Nodes.{PartsBelow, IsNodeIn, tree_at};
ghost use Rattle.ltl_formula.specs.Text.{formula_text};
ghost use Rattle.ltl_formula.specs.Tree.{SignalsBelow};
ghost use Rattle.ltl_formula.specs.Written.{Writes};

use crate::formulas::Formulas;
use crate::nodes::{FormulaId, MAX_NODES, Node};
use names_and_numbers::Name;
use std::alloc::AllocError;

/// The most bytes of a text that is written.
const LONGEST: usize = 1 << 27;

/// Appends the text of the formula, with `names[s]` for signal s. Every operator but `!` has its brackets.
/// The text can be exponentially longer than the list of nodes, so its length is found first. A text of over 2^27 bytes is never
/// written; there and where there is no room for it, memory is wanted, and `out` stays as it was.
pub fn write_formula(
    formulas: &Formulas,
    f: FormulaId,
    names: &[Name],
    out: &mut Vec<u8>,
) -> Result<(), AllocError>
    requires stands { IsNodeIn formulas.now f }
    requires named { SignalsBelow (length names.now) (tree_at formulas.now f) }
    ensures ok { OnOk result (out.new.items ≡ out.old.items ++ formula_text names.now (tree_at formulas.now f)) }
    ensures err { OnErr result (out.new.items ≡ out.old.items) }
{
    let length = text_len(formulas, f, names);
    if length > LONGEST {
        return Err(AllocError);
    }
    out.reserve(length)?;
    let start = out.len();
    let written = write_node(formulas, f, names, out);
    if written.is_err() {
        out.truncate(start);
    }
    written
}

/// The length of the formula's text, or the greatest number where it is longer. One pass over the nodes.
fn text_len(formulas: &Formulas, f: FormulaId, names: &[Name]) -> usize
    requires { IsNodeIn formulas.now f }
{
    let mut lengths = [0usize; MAX_NODES];
    for place in 0..=f.0 {
        let length = node_text_len(formulas.node(FormulaId(place)), &lengths, names);
        lengths[place as usize] = length;
    }
    lengths[f.0 as usize]
}

/// The length of the text of one node, given those of its parts.
fn node_text_len(node: Node, lengths: &[usize], names: &[Name]) -> usize
    requires { PartsBelow (length lengths.now) node }
{
    match node {
        Node::True => 4,
        Node::False => 5,
        Node::Signal(signal) => names
            .get(signal as usize)
            .map_or(0, |name| name.bytes().len()),
        Node::Not(a) => lengths[a.0 as usize].saturating_add(1),
        Node::Next(a) | Node::Finally(a) | Node::Globally(a) =>
            lengths[a.0 as usize].saturating_add(4),
        Node::And(a, b) | Node::Or(a, b) | Node::Implies(a, b) => joined_len(
            lengths[a.0 as usize],
            2,
            lengths[b.0 as usize],
        ),
        Node::Equiv(a, b) => joined_len(lengths[a.0 as usize], 3, lengths[b.0 as usize]),
        Node::Until(a, b) | Node::Release(a, b) | Node::WeakUntil(a, b) => joined_len(
            lengths[a.0 as usize],
            1,
            lengths[b.0 as usize],
        ),
    }
}

/// The length of an operator's text between its parts, with brackets and blanks.
fn joined_len(left: usize, operator: usize, right: usize) -> usize {
    left.saturating_add(operator)
        .saturating_add(right)
        .saturating_add(4)
}

#[cycle(text)]
fn write_node(
    formulas: &Formulas,
    f: FormulaId,
    names: &[Name],
    out: &mut Vec<u8>,
) -> Result<(), AllocError>
    requires stands { IsNodeIn formulas.now f }
    requires named { SignalsBelow (length names.now) (tree_at formulas.now f) }
    ensures { Writes result out.old.items (formula_text names.now (tree_at formulas.now f)) out.new.items }
{
    match formulas.node(f) {
        Node::True => out.extend_from_slice(b"true"),
        Node::False => out.extend_from_slice(b"false"),
        Node::Signal(signal) => out.extend_from_slice(names[signal as usize].bytes()),
        Node::Not(a) => write_between(formulas, b"!", a, names, b"", out),
        Node::Next(a) => write_between(formulas, b"(X ", a, names, b")", out),
        Node::Finally(a) => write_between(formulas, b"(F ", a, names, b")", out),
        Node::Globally(a) => write_between(formulas, b"(G ", a, names, b")", out),
        Node::And(a, b) => write_joined(formulas, a, b" && ", b, names, out),
        Node::Or(a, b) => write_joined(formulas, a, b" || ", b, names, out),
        Node::Implies(a, b) => write_joined(formulas, a, b" -> ", b, names, out),
        Node::Equiv(a, b) => write_joined(formulas, a, b" <-> ", b, names, out),
        Node::Until(a, b) => write_joined(formulas, a, b" U ", b, names, out),
        Node::Release(a, b) => write_joined(formulas, a, b" R ", b, names, out),
        Node::WeakUntil(a, b) => write_joined(formulas, a, b" W ", b, names, out),
    }
}

#[cycle(text)]
fn write_between(
    formulas: &Formulas,
    before: &[u8],
    f: FormulaId,
    names: &[Name],
    behind: &[u8],
    out: &mut Vec<u8>,
) -> Result<(), AllocError>
    requires stands { IsNodeIn formulas.now f }
    requires named { SignalsBelow (length names.now) (tree_at formulas.now f) }
    ensures { Writes result out.old.items (before.now ++ formula_text names.now (tree_at formulas.now f) ++ behind.now) out.new.items }
{
    out.extend_from_slice(before)?;
    write_node(formulas, f, names, out)?;
    out.extend_from_slice(behind)
}

#[cycle(text)]
fn write_joined(
    formulas: &Formulas,
    left: FormulaId,
    operator: &[u8],
    right: FormulaId,
    names: &[Name],
    out: &mut Vec<u8>,
) -> Result<(), AllocError>
    requires left_stands { IsNodeIn formulas.now left }
    requires right_stands { IsNodeIn formulas.now right }
    requires left_named { SignalsBelow (length names.now) (tree_at formulas.now left) }
    requires right_named { SignalsBelow (length names.now) (tree_at formulas.now right) }
    ensures { Writes result out.old.items (codes "(" ++ formula_text names.now (tree_at formulas.now left) ++ operator.now ++ formula_text names.now (tree_at formulas.now right) ++ codes ")") out.new.items }
{
    write_between(formulas, b"(", left, names, operator, out)?;
    write_between(formulas, b"", right, names, b")", out)
}
