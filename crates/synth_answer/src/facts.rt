//! The laws on which the answer rests, in one.
ghost use Rattle.synth_answer.specs.Reply.{LawsHold};

use annotation_encode::laws::sizes_rise;
use document_check::laws::bad_lines_are_determined;
use gate_build::laws::smallest_meets_all_states;
use machine_model::laws::components_are_classes;
use refutation_log::laws::legal_logs_are_writable;
use satisfaction::laws::{circuits_defeat, circuits_satisfy};
use size_laws::closed_logs_refute;
use text_ground::laws::sides_mean;

/// The laws of the layers below that the answer rests on.
pub(crate) fn laws_hold()
    ensures { LawsHold }
{
    components_are_classes();
    sizes_rise();
    smallest_meets_all_states();
    legal_logs_are_writable();
    closed_logs_refute();
    sides_mean();
    circuits_satisfy();
    circuits_defeat();
    bad_lines_are_determined();
}
