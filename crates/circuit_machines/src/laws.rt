//! Laws of circuits as machines. Each is the contract of a function that does nothing.

ghost use Rattle.circuit_machines.specs.Laws.{CircuitsAreMachines, CircuitsHaveStates, StatesAreCounted};

/// Each circuit has a number of states.
pub fn circuits_have_states()
    ensures { CircuitsHaveStates }
{}

/// A circuit has one number of states.
pub fn states_are_counted()
    ensures { StatesAreCounted }
{}

/// Each circuit has a machine of its runs, of its kind, and of as many states.
pub fn circuits_are_machines()
    ensures { CircuitsAreMachines }
{}
