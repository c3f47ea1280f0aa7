//! Laws of the answers of several commands, each the contract of a function that does nothing.
ghost use Rattle.answer_laws.specs.Accepted.{PrintedIsAccepted};
ghost use Rattle.answer_laws.specs.Solved.{SolutionsAreAccepted};

use aiger_text::files_state_one_thing;
use check_answer::laws::checks_are_determined;
use document_check::laws::bad_lines_are_determined;
use document_text::laws::documents_are_determined;
use flat_text::laws::{flat_texts_are_determined, flat_texts_have_no_fault};
use side_automata::laws::answers_are_apart;
use solve_ground::laws::solve_texts_are_determined;
use solved_text::laws::solved_are_determined;
use spec_problems::laws::problems_of_formulas_are_determined;
use taken_laws::laws::own_kinds_are_given;
use tlsf_reader::laws::trees_are_determined;

/// What `synth`, `batch` and `core` print for a text, `check` accepts for it, with the line of the verdict and the kind that are printed.
/// In the documents inside an answer of `core` no line is bad for the text with their guarantees.
pub fn printed_is_accepted()
    ensures { PrintedIsAccepted }
{
    trees_are_determined();
    flat_texts_are_determined();
    flat_texts_have_no_fault();
    answers_are_apart();
    problems_of_formulas_are_determined();
    files_state_one_thing();
    documents_are_determined();
    bad_lines_are_determined();
}

/// What `solve` and `batch --solve` print for a text, `check` accepts for it, with the line of the document that is printed.
pub fn solutions_are_accepted()
    ensures { SolutionsAreAccepted }
{
    solved_are_determined();
    checks_are_determined();
    solve_texts_are_determined();
    own_kinds_are_given();
}
