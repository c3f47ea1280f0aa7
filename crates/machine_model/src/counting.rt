ghost use Rattle.std.specs.Prelude.{◌≡◌, ◌≤◌, IfOk};
ghost use Rattle.text_limits.specs.declared.TheConstants.{LARGE_LIMITS};
ghost use Rattle.machine_model.specs.Automaton.{states_of};
ghost use Rattle.machine_model.specs.Counting.{IsCountedAs, is_local, is_numbered};

use crate::automata::Automaton;
use crate::components::Components;
use std::alloc::{AllocError, Global};

/// What the numbers of an annotation are to count.
#[derive(Clone, Copy, Debug, PartialEq, Eq)]
pub enum Counts {
    /// All rejecting states.
    Whole,
    /// Those of the component of the automaton that a run is in.
    Local,
}

impl Counts {
    /// How numbers count so in an automaton of at most as many states as the larger limits allow. The states of machines are numbered.
    pub fn over(self, alloc: Global, automaton: &Automaton) -> Result<Counting, AllocError>
        requires { states_of automaton.now ≤ LARGE_LIMITS.automaton.states }
        ensures { IfOk result (IsCountedAs self automaton.now) }
    {
        match self {
            Counts::Whole => Ok(Counting::AllRejecting { numbered: true }),
            Counts::Local => Ok(Counting::ByComponent(Components::of(alloc, automaton)?)),
        }
    }
}

/// What the numbers of an annotation count in an automaton, and whether the states of machines are numbered.
#[derive(Debug, Drop)]
pub enum Counting {
    /// All rejecting states. States stand in any order, or are numbered as the machine's rows first name them.
    AllRejecting { numbered: bool },
    /// Those of the component that a run is in, of these components of the automaton. States are numbered.
    ByComponent(Components),
}

impl Counting {
    /// Whether numbers count by component.
    pub fn is_local(&self) -> bool
        ensures { result ≡ is_local self.now }
    {
        match self {
            Counting::AllRejecting { .. } => false,
            Counting::ByComponent(_) => true,
        }
    }

    /// Whether the states of machines are numbered.
    pub fn is_numbered(&self) -> bool
        ensures { result ≡ is_numbered self.now }
    {
        match self {
            Counting::AllRejecting { numbered } => *numbered,
            Counting::ByComponent(_) => true,
        }
    }

    /// The same, with the components shared. An error means that they have as many owners as can be counted.
    pub fn try_clone(&self) -> Result<Counting, AllocError>
        ensures { IfOk result (λ counting. counting ≡ self.now) }
    {
        match self {
            Counting::AllRejecting { numbered } => Ok(Counting::AllRejecting {
                numbered: *numbered,
            }),
            Counting::ByComponent(components) => {
                Ok(Counting::ByComponent(components.try_clone()?))
            }
        }
    }
}
