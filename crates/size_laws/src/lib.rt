//! What a log says of a size: one that is closed over the base clauses of a problem refutes the problem's number of states.
//!
//! The contract above this layer: `closed_logs_refute`, for each such log the side accepts no machine of the problem, and
//! each has a run that shows it. Both the search and the checker of documents cite it. It stands on annotation_encode and
//! refutation_log.
#![tactic(auto)]

ghost use Rattle.size_laws.specs.Refuted.{ClosedLogsRefute};

use annotation_encode::laws::unmet_has_no_accepted;
use refutation_log::laws::logs_are_sound;

/// Where a log is closed over a problem's base clauses, the side accepts no machine of the problem.
pub fn closed_logs_refute()
    ensures { ClosedLogsRefute }
{
    logs_are_sound();
    unmet_has_no_accepted();
}
