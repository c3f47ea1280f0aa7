//! Laws of the answers, each the contract of a function that does nothing.
ghost use Rattle.check_answer.specs.Laws.{ChecksAreDetermined};

use document_check::laws::{alike_texts_check_alike, bad_lines_are_determined};
use document_text::laws::documents_are_determined;
use solve_check::laws::solved_checks_are_determined;
use solve_ground::laws::solve_texts_are_determined;
use solved_text::laws::solved_are_determined;
use spec_problems::laws::problems_of_texts_are_determined;

/// A text and a certificate have one answer, with status 0, 1 or 40.
pub fn checks_are_determined()
    ensures { ChecksAreDetermined }
{
    problems_of_texts_are_determined();
    bad_lines_are_determined();
    documents_are_determined();
    alike_texts_check_alike();
    solve_texts_are_determined();
    solved_are_determined();
    solved_checks_are_determined();
}
