//! Laws of the test, each the contract of a function that does nothing.
ghost use Rattle.circuit_check.specs.Laws.{FirstBadLinesAreDetermined};

use aiger_text::{faults_state_nothing, files_have_one_fault, files_state_one_thing};
use named_annotation::laws::named_readings_are_apart;

/// Of a file at most one line is the first bad one, and none where its annotation is valid.
pub fn first_bad_lines_are_determined()
    ensures { FirstBadLinesAreDetermined }
{
    files_state_one_thing();
    files_have_one_fault();
    faults_state_nothing();
    named_readings_are_apart();
}
