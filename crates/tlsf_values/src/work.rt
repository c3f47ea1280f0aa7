//! What an evaluation adds to, and how much of it there may be.

ghost use Rattle.ltl_formula.specs.Nodes.{Grows};
ghost use Rattle.tlsf_values.specs.Outcomes.{counted, made};
ghost use Rattle.tlsf_values.specs.Results.{IsOutcome};

use ltl_formula::{AddFault, FormulaId, Formulas, Node};
use spec_faults::{SpecCode, SpecFault, fault};
use text_limits::Limits;

/// How many evaluations there are at most.
pub const MOST_EVALUATIONS: u64 = 1_000_000;

/// How many nodes and calls are entered and not left at most.
pub const MOST_DEPTH: u32 = 1024;

/// The limits of a text, the evaluations that were done, and the list of flat formulas.
#[derive(Debug, Drop)]
pub struct Work {
    pub limits: Limits,
    pub done: u64,
    pub formulas: Formulas,
}

impl Work {
    /// Counts so many evaluations for the node of the written tree at this byte.
    pub(crate) fn count(&mut self, place: u64, evaluations: u128) -> Result<(), SpecFault>
        ensures value { IsOutcome result self.new (counted place evaluations self.old) }
        ensures grows { Grows self.old.formulas self.new.formulas }
    {
        let allowed = MOST_EVALUATIONS.saturating_sub(self.done);
        if evaluations > u128::from(allowed) {
            return Err(fault(SpecCode::ExpandTooLong, place));
        }
        self.done += evaluations as u64;
        Ok(())
    }

    /// The id of a node in the list, for the node of the written tree at this byte.
    pub fn made(&mut self, place: u64, node: Node) -> Result<FormulaId, SpecFault>
        ensures value { IsOutcome result self.new (made place node self.old) }
        ensures grows { Grows self.old.formulas self.new.formulas }
    {
        if !self.formulas.can_add(node) {
            return Err(fault(SpecCode::WrongSort, place));
        }
        match self.formulas.add(self.limits.nodes, node) {
            Ok(id) => Ok(id),
            Err(AddFault::TooManyNodes) => Err(fault(SpecCode::TooManyNodes, place)),
            Err(AddFault::NoMemory) => Err(SpecFault::NoMemory),
        }
    }

    /// The id of a signal's node.
    pub(crate) fn signal_made(&mut self, place: u64, signal: usize) -> Result<FormulaId, SpecFault>
        ensures value { IsOutcome result self.new (made place (Node.Signal signal) self.old) }
        ensures grows { Grows self.old.formulas self.new.formulas }
    {
        match u32::try_from(signal) {
            Ok(signal) => self.made(place, Node::Signal(signal)),
            Err(_) => Err(fault(SpecCode::WrongSort, place)),
        }
    }
}
