//! The formula of a text in the syntax of SMV.

ghost use Rattle.std.specs.Prelude.{◌≡◌};
ghost use Rattle.ltl_formula.specs.Nodes.{IsNodeIn};

use ltl_formula::{FormulaId, Formulas, Node};
use machine_table::Text;
use names_and_numbers::Name;

/// Puts a formula, with these names for its signals.
#[cycle(smv)]
pub(crate) fn put_smv(formulas: &Formulas, f: FormulaId, names: &[Name], out: &mut Text)
    requires { IsNodeIn formulas.now f }
{
    // A formula can be exponentially longer than its list.
    if out.is_cut() {
        return;
    }
    match formulas.node(f) {
        Node::True => out.put("TRUE"),
        Node::False => out.put("FALSE"),
        Node::Signal(signal) => put_signal(signal, names, out),
        Node::Not(a) => put_one(formulas, "(! ", a, names, out),
        Node::Next(a) => put_one(formulas, "(X ", a, names, out),
        Node::Finally(a) => put_one(formulas, "(F ", a, names, out),
        Node::Globally(a) => put_one(formulas, "(G ", a, names, out),
        Node::And(a, b) => put_two(formulas, a, " & ", b, names, out),
        Node::Or(a, b) => put_two(formulas, a, " | ", b, names, out),
        Node::Implies(a, b) => put_two(formulas, a, " -> ", b, names, out),
        Node::Equiv(a, b) => put_two(formulas, a, " <-> ", b, names, out),
        Node::Until(a, b) => put_two(formulas, a, " U ", b, names, out),
        Node::Release(a, b) => put_two(formulas, a, " V ", b, names, out),
        Node::WeakUntil(a, b) => put_weak(formulas, a, b, names, out),
    }
}

fn put_signal(signal: u32, names: &[Name], out: &mut Text) {
    if let Some(name) = names.get(signal as usize) {
        out.put_bytes(name.bytes());
    }
}

#[cycle(smv)]
fn put_one(formulas: &Formulas, front: &str, f: FormulaId, names: &[Name], out: &mut Text)
    requires { IsNodeIn formulas.now f }
{
    out.put(front);
    put_smv(formulas, f, names, out);
    out.put(")");
}

#[cycle(smv)]
fn put_two(
    formulas: &Formulas,
    left: FormulaId,
    operator: &str,
    right: FormulaId,
    names: &[Name],
    out: &mut Text,
)
    requires left { IsNodeIn formulas.now left }
    requires right { IsNodeIn formulas.now right }
{
    out.put("(");
    put_smv(formulas, left, names, out);
    out.put(operator);
    put_one(formulas, "", right, names, out);
}

/// `a W b` is `b V (a | b)`, since SMV has no W.
#[cycle(smv)]
fn put_weak(formulas: &Formulas, left: FormulaId, right: FormulaId, names: &[Name], out: &mut Text)
    requires left { IsNodeIn formulas.now left }
    requires right { IsNodeIn formulas.now right }
{
    out.put("(");
    put_smv(formulas, right, names, out);
    out.put(" V ");
    put_two(formulas, left, " | ", right, names, out);
    out.put(")");
}
