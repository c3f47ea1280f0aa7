//! What no bound of a search changes.
ghost use Rattle.synth_answer.specs.Numbers.{NoSmallerCircuits, VerdictsAreDetermined};

use circuit_laws::laws::{no_small_circuit_defeats, no_small_circuit_satisfies};
use document_text::laws::documents_are_determined;
use satisfaction::laws::defeating_cannot_lose;
use tlsf_reader::laws::trees_are_determined;

/// Two answers of status 10, or of status 20, to one text and kind tell the same number of states, and there is none of status 10 beside
/// one of status 20.
pub fn verdicts_are_determined()
    ensures { VerdictsAreDetermined }
{
    trees_are_determined();
    documents_are_determined();
    defeating_cannot_lose();
}

/// Below the number of states of an answer of status 10 no circuit satisfies, and below that of one of status 20 none defeats.
pub fn no_smaller_circuits()
    ensures { NoSmallerCircuits }
{
    trees_are_determined();
    documents_are_determined();
    no_small_circuit_satisfies();
    no_small_circuit_defeats();
}
