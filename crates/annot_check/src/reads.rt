//! Which variables lead to inputs.

ghost use Rattle.std.specs.Prelude.{◌≡◌, ◌/◌, ◌+◌, ◌<◌, ◌&&◌, ◌||◌, not, IfOk, MatchOption, length, replicate, false, true};
ghost use Rattle.annot_check.specs.Causes.{IsFirstByInput};
ghost use Rattle.annot_check.specs.Marks.{AreClosed, AreSound, marked, unmarked};
ghost use Rattle.annot_check.specs.Valid.{WritesByLatches};

use aiger_text::{Circuit, Gate};
use std::alloc::{AllocError, Global};

/// The first output whose literal leads to an input. Linear in the circuit where gates stand behind those that they use.
pub(crate) fn first_by_input(alloc: Global, circuit: &Circuit) -> Result<Option<usize>, AllocError>
    ensures { IfOk result (λ found. MatchOption found (WritesByLatches circuit.now) (IsFirstByInput circuit.now)) }
{
    let mut leads = vec![in alloc; false; circuit.variables as usize + 1]?;
    mark_inputs(&mut leads, circuit);
    while mark_gates(&mut leads, circuit) {}
    Ok(first_marked(&leads, circuit))
}

/// Marks the inputs, where nothing is marked yet.
fn mark_inputs(leads: &mut [bool], circuit: &Circuit)
    requires { leads.old ≡ replicate (circuit.now.variables + 1) false }
    ensures { AreSound circuit.now leads.new }
{
    for input in &circuit.inputs {
        leads[(*input / 2) as usize] = true;
    }
}

/// Marks the gates that have a marked operand, in their order, and says whether there was one.
fn mark_gates(leads: &mut [bool], circuit: &Circuit) -> bool
    requires { AreSound circuit.now leads.old }
    ensures sound { AreSound circuit.now leads.new }
    ensures fewer { result ≡ true → unmarked leads.new < unmarked leads.old }
    ensures closed { result ≡ false → AreClosed circuit.now leads.new }
{
    let mut grown = false;
    for gate in &circuit.gates {
        if is_next(leads, gate) {
            leads[(gate.literal / 2) as usize] = true;
            grown = true;
        }
    }
    grown
}

/// Whether a gate has a marked operand, and isn't marked itself.
fn is_next(leads: &[bool], gate: &Gate) -> bool
    requires left { gate.now.left / 2 < length leads.now }
    requires right { gate.now.right / 2 < length leads.now }
    requires own { gate.now.literal / 2 < length leads.now }
    ensures { result ≡ ((marked leads.now gate.now.left || marked leads.now gate.now.right) && not (marked leads.now gate.now.literal)) }
{
    (leads[(gate.left / 2) as usize] || leads[(gate.right / 2) as usize])
        && !leads[(gate.literal / 2) as usize]
}

/// The first output whose variable is marked.
fn first_marked(leads: &[bool], circuit: &Circuit) -> Option<usize>
    requires sound { AreSound circuit.now leads.now }
    requires closed { AreClosed circuit.now leads.now }
    ensures { MatchOption result (WritesByLatches circuit.now) (IsFirstByInput circuit.now) }
{
    for (place, output) in circuit.outputs.iter().enumerate() {
        if leads[(*output / 2) as usize] {
            return Some(place);
        }
    }
    None
}
