//! Formulas as texts: `a` is signal 0, `b` signal 1 and so on, `1` and `0` are the constants, and each operator stands behind its parts,
//! as in `abX>` for `a -> X b`. `:` stands for the formula before it once more.
ghost use Rattle.std.specs.Prelude.{IfOk};
ghost use Rattle.ltl_formula.specs.Nodes.{IsNodeIn};

use ltl_formula::{FormulaId, Formulas, MAX_NODES, Node};
use std::alloc::{AllocError, Global};
use std::test::Fail;

fn add(formulas: &mut Formulas, node: Node) -> Result<FormulaId, Fail> {
    if !formulas.can_add(node) {
        return Err(Fail::from("a part is missing"));
    }
    Ok(formulas.add(MAX_NODES, node)?)
}

/// The node of an operator with one part.
fn unary(operator: u8, a: FormulaId) -> Option<Node> {
    match operator {
        b'!' => Some(Node::Not(a)),
        b'X' => Some(Node::Next(a)),
        b'F' => Some(Node::Finally(a)),
        b'G' => Some(Node::Globally(a)),
        _ => None,
    }
}

/// The node of an operator with two parts.
fn binary(operator: u8, a: FormulaId, b: FormulaId) -> Node {
    match operator {
        b'&' => Node::And(a, b),
        b'|' => Node::Or(a, b),
        b'>' => Node::Implies(a, b),
        b'=' => Node::Equiv(a, b),
        b'U' => Node::Until(a, b),
        b'R' => Node::Release(a, b),
        _ => Node::WeakUntil(a, b),
    }
}

/// The node of a byte, whose parts are taken off.
fn node_of(byte: u8, parts: &mut Vec<FormulaId>) -> Node {
    if byte == b'1' {
        return Node::True;
    }
    if byte == b'0' {
        return Node::False;
    }
    if byte.is_ascii_lowercase() {
        return Node::Signal(u32::from(byte.wrapping_sub(b'a')));
    }
    let last = parts.pop().unwrap_or(FormulaId(0));
    match unary(byte, last) {
        Some(node) => node,
        None => binary(byte, parts.pop().unwrap_or(FormulaId(0)), last),
    }
}

/// The formula of a text.
pub(crate) fn formula(
    alloc: Global,
    formulas: &mut Formulas,
    text: &[u8],
) -> Result<FormulaId, Fail>
    ensures { IfOk result (IsNodeIn formulas.new) }
{
    let mut parts = Vec::new(alloc);
    for byte in text {
        let id = match parts.last().copied() {
            Some(last) if *byte == b':' => last,
            _ => {
                let node = node_of(*byte, &mut parts);
                add(formulas, node)?
            }
        };
        parts.push(id)?;
    }
    let id = parts.pop().ok_or("no formula")?;
    if (id.0 as usize) < formulas.len() {
        Ok(id)
    } else {
        Err(Fail::from("no formula"))
    }
}

/// Appends a text so many times.
pub(crate) fn push_times(text: &mut Vec<u8>, part: &[u8], times: u32) -> Result<(), AllocError> {
    for _ in 0..times {
        text.extend_from_slice(part)?;
    }
    Ok(())
}
