ghost use Rattle.std.specs.Prelude.{◌≡◌, IfNone, IfOk, IfSome, false, true};

use crate::automata::Automaton;
use crate::components::Components;
use crate::counting::{Counting, Counts};
use letters_and_lassos::{Kind, Side};
use std::alloc::{AllocError, Global};
use std::sync::Arc;

/// The search for a machine of one side and size, which that side's automaton accepts.
/// Calls say within which limits they take one.
#[derive(Debug, Drop)]
pub struct Problem {
    /// What the side accepts. Its cubes name only signals below `inputs + outputs`.
    pub automaton: Arc<Automaton>,
    /// The number of inputs.
    pub inputs: u32,
    /// The number of outputs.
    pub outputs: u32,
    /// Whose machine is looked for. The system reads inputs and writes outputs, the environment the other way round.
    pub side: Side,
    /// The kind of this side's machines.
    pub kind: Kind,
    /// The number of the machine's states, at least 1.
    pub size: u32,
    /// What the numbers of annotations count in the automaton, and whether the machine's states are numbered.
    pub counting: Counting,
}

impl Problem {
    ghost use Rattle.machine_model.specs.Components.{AreComponentsOf};
    ghost use Rattle.machine_model.specs.Counting.{CountsIn};
    ghost use Rattle.machine_model.specs.Problem.{IsProblem, automaton_of, counts_locally, parts_of, reads_of, sized, writes_of};

    /// The same problem for another number of states. The automaton is shared, and nothing is copied: an error means that
    /// it has as many owners as can be counted.
    pub fn sized(&self, size: u32) -> Result<Problem, AllocError>
        ensures { IfOk result (λ p. parts_of p ≡ parts_of (sized self.now size)) }
    {
        Ok(Problem {
            automaton: Arc::try_clone(&self.automaton)?,
            inputs: self.inputs,
            outputs: self.outputs,
            side: self.side,
            kind: self.kind,
            size,
            counting: self.counting.try_clone()?,
        })
    }

    /// The same problem, with numbers that count by component, for which the automaton's components are found where they don't yet.
    pub fn by_component(self, alloc: Global) -> Result<Problem, AllocError>
        requires { IsProblem self }
        ensures problem { IfOk result IsProblem }
        ensures same { IfOk result (λ p. p ≡ record self { counting = p.counting }) }
        ensures local { IfOk result (λ p. counts_locally p ≡ true) }
    {
        if self.counting.is_local() {
            return Ok(self);
        }
        let counting = Counts::Local.over(alloc, &self.automaton)?;
        Ok(Problem { counting, ..self })
    }

    /// The components by which annotations count, if they do.
    pub fn components(&self) -> Option<&Components>
        requires { CountsIn (automaton_of self.now) self.now.counting }
        ensures whole { IfNone result (counts_locally self.now ≡ false) }
        ensures local { IfSome result (λ _. counts_locally self.now ≡ true) }
        ensures right { IfSome result (λ components. AreComponentsOf (automaton_of self.now) components.now) }
    {
        match &self.counting {
            Counting::AllRejecting { .. } => None,
            Counting::ByComponent(components) => Some(components),
        }
    }

    /// The number of signals that the machine reads.
    pub fn reads(&self) -> u32
        ensures { result ≡ reads_of self.now }
    {
        match self.side {
            Side::System => self.inputs,
            Side::Environment => self.outputs,
        }
    }

    /// The number of signals that the machine writes.
    pub fn writes(&self) -> u32
        ensures { result ≡ writes_of self.now }
    {
        match self.side {
            Side::System => self.outputs,
            Side::Environment => self.inputs,
        }
    }
}
