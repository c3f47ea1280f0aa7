//! Laws of what circuits owe. Each is the contract of a function that does nothing.

ghost use Rattle.circuit_laws.specs.Laws.{LosingCircuitsDefeat, NoMachineNoCircuit, NoMachineNoDefeat, NoSmallCircuitDefeats, NoSmallCircuitSatisfies};

use circuit_machines::laws::{circuits_are_machines, circuits_have_states};
use satisfaction::laws::defeating_cannot_lose;
use side_automata::laws::every_pair_has_a_play;

/// Where no machine of some size satisfies, no circuit with so many states does.
pub fn no_machine_no_circuit()
    ensures { NoMachineNoCircuit }
{
    circuits_are_machines();
}

/// Where no machine of any size up to a bound satisfies, no circuit with at most so many states does.
pub fn no_small_circuit_satisfies()
    ensures { NoSmallCircuitSatisfies }
{
    circuits_are_machines();
}

/// Where each machine of the environment of some size can lose, no circuit with so many states defeats.
pub fn no_machine_no_defeat()
    ensures { NoMachineNoDefeat }
{
    circuits_are_machines();
    defeating_cannot_lose();
}

/// Where each machine of the environment of any size up to a bound can lose, no circuit with at most so many states defeats.
pub fn no_small_circuit_defeats()
    ensures { NoSmallCircuitDefeats }
{
    circuits_are_machines();
    defeating_cannot_lose();
}

/// A circuit of the environment defeats every machine exactly where what is wanted is false on each of its run lassos.
pub fn losing_circuits_defeat()
    ensures { LosingCircuitsDefeat }
{
    circuits_have_states();
    circuits_are_machines();
    every_pair_has_a_play();
}
