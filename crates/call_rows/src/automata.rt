//! How large the automata of a text are, over plain covers and over reduced ones.
ghost use Rattle.ltl_formula.specs.NormalForm.{IsNormal};
ghost use Rattle.ltl_formula.specs.Nodes.{IsNodeIn, tree_at};

use crate::lines::Lines;
use crate::push_fault;
use cobuchi_build::{BuildFault, build};
use ltl_formula::{FormulaId, Formulas};
use obligation_sets::Covering;
use solve_ground::solve_text;
use std::alloc::AllocError;
use text_limits::SMALL_LIMITS;

/// The states and edges of a formula's automaton, or that it passes a limit.
fn push_automaton(
    lines: &mut Lines,
    side: &str,
    formulas: &Formulas,
    f: FormulaId,
    covering: Covering,
) -> Result<(), AllocError>
    requires stands { IsNodeIn formulas.now f }
    requires normal { IsNormal (tree_at formulas.now f) }
{
    let line = match build(lines.alloc, formulas, f, covering, SMALL_LIMITS.automaton) {
        Ok(automaton) => {
            let edges = automaton.edges().len();
            format!(in lines.alloc;
                "{side}, {covering:?}: {} states, {edges} edges\n",
                automaton.states()
            )?
        }
        Err(BuildFault::NoMemory) => return Err(AllocError),
        Err(fault) => format!(in lines.alloc; "{side}, {covering:?}: {fault:?}\n")?,
    };
    lines.push(line.as_bytes())
}

/// The sizes of a side's automata.
fn push_side(
    lines: &mut Lines,
    side: &str,
    formulas: &Formulas,
    f: FormulaId,
) -> Result<(), AllocError>
    requires stands { IsNodeIn formulas.now f }
    requires normal { IsNormal (tree_at formulas.now f) }
{
    push_automaton(lines, side, formulas, f, Covering::Plain)?;
    push_automaton(lines, side, formulas, f, Covering::Reduced)
}

/// The sizes of the automata of both sides of a text, or its first fault.
pub(crate) fn push_automata(lines: &mut Lines, text: &[u8]) -> Result<(), AllocError> {
    match solve_text(lines.alloc, text, None) {
        Ok(text) => {
            push_side(lines, "system", &text.formulas, text.negated)?;
            push_side(lines, "environment", &text.formulas, text.normal)
        }
        Err(fault) => push_fault(lines, fault),
    }
}
