//! What is said of a machine of the system's side beside its circuit. Nothing is promised of it.

use aiger_text::Circuit;
use letters_and_lassos::{Kind, Side};
use machine_remarks::remarks_of;
use outcome_news::{Remarks, Solution};
use std::alloc::Global;
use time_limits::Deadline;

/// A text's bytes, and the kind that is given in place of its own.
#[derive(Clone, Copy)]
pub(crate) struct Original<'a> {
    pub(crate) text: &'a [u8],
    pub(crate) given: Option<Kind>,
}

impl Original<'_> {
    /// What is told of a solution, with what is said of the machine that is printed. Where memory or time runs out, nothing is said of it.
    pub(crate) fn with_remarks<D: Deadline>(
        self,
        alloc: Global,
        solution: Solution,
        circuit: Option<&Circuit>,
        deadline: &D,
    ) -> Solution {
        let Some(circuit) = circuit else {
            return solution;
        };
        if solution.side == Side::Environment || deadline.is_over() {
            return solution;
        }
        let remarks = match remarks_of(alloc, self.text, self.given, circuit, deadline) {
            Ok(remarks) => remarks,
            Err(_) => Remarks::default(),
        };
        Solution {
            remarks,
            ..solution
        }
    }
}
