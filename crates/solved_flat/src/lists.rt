//! A list of formulas, a line for each node.
ghost use Rattle.std.specs.Prelude.{◌≡◌, ◌++◌, ◌∷◌, [], IfOk, OnErr, OnOk, IsErrOf, codes, slice_index_or};
ghost use Rattle.input_output.specs.Bytes.{Gains, GainsFront};
ghost use Rattle.input_output.specs.Faults.{Rose};
ghost use Rattle.ltl_formula.specs.Nodes.{IsNodeIn};
ghost use Rattle.solved_flat.specs.Expand.{node_line, node_lines, node_words, of_one, of_two};

use input_output::{Sink, SinkFault};
use ltl_formula::{FormulaId, Formulas, Node};
use names_and_numbers::{Name, push_number};
use std::alloc::{AllocError, Global};

/// Writes the list, each line with its end by one call.
pub(crate) fn put_nodes<K: Sink>(
    alloc: Global,
    formulas: &Formulas,
    names: &[Name],
    out: &mut K,
) -> Result<(), SinkFault>
    ensures ok { OnOk result (Gains (K.written out.old) (K.written out.new) (node_lines names.now formulas.now)) }
    ensures front { OnErr result (GainsFront (K.written out.old) (K.written out.new) (node_lines names.now formulas.now)) }
    ensures failed { IsErrOf result SinkFault.Failed → Rose (K.faults out.old) (K.faults out.new) }
{
    for place in 0..formulas.len() as u32 {
        put_node(alloc, formulas, FormulaId(place), names, out)?;
    }
    Ok(())
}

fn put_node<K: Sink>(
    alloc: Global,
    formulas: &Formulas,
    id: FormulaId,
    names: &[Name],
    out: &mut K,
) -> Result<(), SinkFault>
    requires { IsNodeIn formulas.now id }
    ensures ok { OnOk result (Gains (K.written out.old) (K.written out.new) (node_line names.now formulas.now id.0)) }
    ensures front { OnErr result (GainsFront (K.written out.old) (K.written out.new) (node_line names.now formulas.now id.0)) }
    ensures failed { IsErrOf result SinkFault.Failed → Rose (K.faults out.old) (K.faults out.new) }
    ensures not_failed { OnOk result (K.faults out.new ≡ K.faults out.old) }
{
    let line = node_line(alloc, formulas, id, names)?;
    out.put(&line)
}

/// The line of a node, with its end.
fn node_line(
    alloc: Global,
    formulas: &Formulas,
    id: FormulaId,
    names: &[Name],
) -> Result<Vec<u8>, AllocError>
    requires { IsNodeIn formulas.now id }
    ensures { IfOk result (λ line. line.items ≡ node_line names.now formulas.now id.0) }
{
    let mut line = Vec::from_slice(alloc, b"node ")?;
    push_number(&mut line, u64::from(id.0))?;
    line.push(b' ')?;
    push_node(&mut line, formulas.node(id), names)?;
    line.push(b'\n')?;
    Ok(line)
}

/// Appends what a node is.
fn push_node(line: &mut Vec<u8>, node: Node, names: &[Name]) -> Result<(), AllocError>
    ensures { IfOk result (λ _. line.new.items ≡ line.old.items ++ node_words names.now node) }
{
    match node {
        Node::True => line.extend_from_slice(b"true"),
        Node::False => line.extend_from_slice(b"false"),
        Node::Signal(signal) => push_signal(line, signal, names),
        Node::Not(a) => push_one(line, b"!", a),
        Node::Next(a) => push_one(line, b"X", a),
        Node::Finally(a) => push_one(line, b"F", a),
        Node::Globally(a) => push_one(line, b"G", a),
        Node::And(a, b) => push_two(line, b"&&", a, b),
        Node::Or(a, b) => push_two(line, b"||", a, b),
        Node::Implies(a, b) => push_two(line, b"->", a, b),
        Node::Equiv(a, b) => push_two(line, b"<->", a, b),
        Node::Until(a, b) => push_two(line, b"U", a, b),
        Node::Release(a, b) => push_two(line, b"R", a, b),
        Node::WeakUntil(a, b) => push_two(line, b"W", a, b),
    }
}

/// Appends a signal by its name.
fn push_signal(line: &mut Vec<u8>, signal: u32, names: &[Name]) -> Result<(), AllocError>
    ensures { IfOk result (λ _. line.new.items ≡ line.old.items ++ codes "signal " ++ slice_index_or names.now signal []) }
{
    line.extend_from_slice(b"signal ")?;
    match names.get(signal as usize) {
        Some(name) => line.extend_from_slice(name.bytes()),
        None => Ok(()),
    }
}

/// Appends an operator and the id of its part.
fn push_one(line: &mut Vec<u8>, sign: &[u8], a: FormulaId) -> Result<(), AllocError>
    ensures { IfOk result (λ _. line.new.items ≡ line.old.items ++ of_one sign.now a) }
{
    line.extend_from_slice(sign)?;
    line.push(b' ')?;
    push_number(line, u64::from(a.0))
}

/// Appends an operator and the ids of both its parts.
fn push_two(line: &mut Vec<u8>, sign: &[u8], a: FormulaId, b: FormulaId) -> Result<(), AllocError>
    ensures { IfOk result (λ _. line.new.items ≡ line.old.items ++ of_two sign.now a b) }
{
    push_one(line, sign, a)?;
    line.push(b' ')?;
    push_number(line, u64::from(b.0))
}
