//! What is tested of a document's circuit.
ghost use Rattle.std.specs.Prelude.{◌≡◌};
ghost use Rattle.document_check.specs.FirstBad.{circuit_line as line_of_circuit, faulty_line as line_of_faulty, side_in as side_of_header, stated_line as line_of_stated};
ghost use Rattle.document_check.specs.Facts.{circuit_side as side_of_circuit};
ghost use Rattle.document_check.specs.Shown.{facts_of};

use crate::facts::TextFacts;
use aiger_text::CircuitFile;
use document_text::{CircuitPart, Header, Verdict};
use letters_and_lassos::Side;

/// The line at which a document's circuit fails for a text, apart from its own fault and from missing names.
pub fn circuit_line(
    facts: TextFacts<'_>,
    bytes: &[u8],
    header: &Header,
    circuit: &CircuitPart,
) -> Option<u64>
    ensures { result ≡ line_of_circuit (facts_of facts.entry) bytes.now header.now circuit.now }
{
    match circuit {
        CircuitPart::Absent => None,
        CircuitPart::Faulty => faulty_line(facts, bytes),
        CircuitPart::Stated(file) => stated_line(facts, side_in(header), file),
    }
}

/// The side of the circuit, where a verdict is reached.
fn side_in(header: &Header) -> Side
    ensures { result ≡ side_of_header header.now }
{
    match header.verdict {
        Some(verdict) => circuit_side(verdict),
        None => Side::System,
    }
}

fn circuit_side(verdict: Verdict) -> Side
    ensures { result ≡ side_of_circuit verdict }
{
    match verdict.machine() {
        Some(machine) => machine.side,
        None => Side::System,
    }
}

/// The line at which a circuit without fault, of this side, fails for a text: line 1 where it has another number of inputs or outputs,
/// else the first name that is another than the text's. Names may be missing.
pub fn stated_line(facts: TextFacts<'_>, side: Side, file: &CircuitFile) -> Option<u64>
    ensures { result ≡ line_of_stated (facts_of facts.entry) side file.now }
{
    circuit_names::stated_line(facts.names(), side, file)
}

/// The line at which the bytes of a system's circuit that has a fault fail for a text, apart from the fault: line 1 where the header
/// doesn't count the text's inputs and outputs, else the first name that is another than the text's.
pub fn faulty_line(facts: TextFacts<'_>, bytes: &[u8]) -> Option<u64>
    ensures { result ≡ line_of_faulty (facts_of facts.entry) bytes.now }
{
    circuit_names::faulty_line(facts.names(), bytes)
}
