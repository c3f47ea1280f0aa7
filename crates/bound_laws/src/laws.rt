//! Laws of answers, each the contract of a function that does nothing.
ghost use Rattle.bound_laws.specs.Laws.{AnswersAgree};

use circuit_machines::laws::circuits_are_machines;
use document_text::laws::documents_are_determined;
use limit_laws::laws::taken_texts_want_the_same;
use solve_check::laws::least_lie_between;

/// The number of states that `synth` tells lies between the sizes that an accepted document of `solve` refutes and the states of its circuit, and none
/// tells of a controller where the other tells of a counter-strategy.
pub fn answers_agree()
    ensures { AnswersAgree }
{
    documents_are_determined();
    circuits_are_machines();
    taken_texts_want_the_same();
    least_lie_between();
}
