//! Laws of the answers, each the contract of a function that does nothing.
ghost use Rattle.verify_answer.specs.Laws.{EnvironmentsAreDetermined, VerificationsAreDetermined};

use aiger_text::{faults_state_nothing, files_have_one_fault, files_state_one_thing};
use annot_check::laws::readings_are_apart;
use circuit_check::laws::first_bad_lines_are_determined;
use solve_ground::laws::solve_texts_are_determined;
use spec_problems::laws::problems_of_texts_are_determined;

/// A text and the file of a circuit that plays the system have one answer, with status 0, 1 or 40.
pub fn verifications_are_determined()
    ensures { VerificationsAreDetermined }
{
    problems_of_texts_are_determined();
    files_state_one_thing();
    files_have_one_fault();
    faults_state_nothing();
    readings_are_apart();
    first_bad_lines_are_determined();
    solve_texts_are_determined();
}

/// A text and the file of a circuit that plays the environment have one answer, with status 0, 1 or 40.
pub fn environments_are_determined()
    ensures { EnvironmentsAreDetermined }
{
    first_bad_lines_are_determined();
    solve_texts_are_determined();
}
