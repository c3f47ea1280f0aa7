//! How large the literals of a witness may be.

ghost use Rattle.std.specs.Prelude.{◌≡◌, ◌≤◌, ◌+◌, ◌^◌, IfOk, length};
ghost use Rattle.ltl_formula.specs.Nodes.{IsNodeIn, IsNodeList};
ghost use Rattle.truth_witness.specs.Variables.{occurring as occurring_in};
ghost use Rattle.witness_bounds.specs.Bounds.{bounds_behind, bounds_of};

use aiger_text::Circuit;
use ltl_formula::{FormulaId, Formulas};
use std::alloc::{AllocError, Global};
use witness_clauses::occurring;

/// How many latches and gates a witness is said to have.
#[derive(Clone, Copy, Debug)]
pub struct Counts {
    pub latches: u32,
    pub gates: u32,
}

/// How large the literals of a witness may be.
#[derive(Clone, Copy, Debug)]
pub struct Bounds {
    /// The literal of the first gate; that of each further one is two more.
    pub first_gate: u32,
    /// The greatest literal of a frame.
    pub top: u32,
}

impl Bounds {
    /// The bounds for a witness that is said to have so many latches and gates. Costs a pass over the list of formulas.
    pub fn of(
        alloc: Global,
        circuit: &Circuit,
        formulas: &Formulas,
        form: FormulaId,
        counts: Counts,
    ) -> Result<Bounds, AllocError>
        requires stands { IsNodeIn formulas.now form }
        requires few { circuit.now.variables + counts.latches + counts.gates ≤ 2 ^ 21 }
        ensures { IfOk result (λ bounds. bounds ≡ bounds_of circuit.now formulas.now form counts) }
    {
        let truths = truth_count(alloc, formulas, form)?;
        Ok(Bounds::behind(circuit.variables + truths, counts))
    }

    /// The bounds behind so many variables of the circuit and of truths.
    fn behind(variables: u32, counts: Counts) -> Bounds
        requires { variables + counts.latches + counts.gates ≤ 2 ^ 22 }
        ensures { result ≡ bounds_behind variables counts }
    {
        let latches_end = variables + counts.latches;
        Bounds {
            first_gate: 2 * (latches_end + 1),
            top: 2 * (latches_end + counts.gates) + 1,
        }
    }
}

/// How many formulas occur in one.
fn truth_count(alloc: Global, formulas: &Formulas, form: FormulaId) -> Result<u32, AllocError>
    requires { IsNodeIn formulas.now form }
    ensures count { IfOk result (λ truths. truths ≡ length (occurring_in formulas.now form)) }
    ensures few { IfOk result (λ truths. truths ≤ 16384) }
{
    let ids = occurring(alloc, formulas, form)?;
    let _nodes = formulas.len();
    Ok(ids.len() as u32)
}
