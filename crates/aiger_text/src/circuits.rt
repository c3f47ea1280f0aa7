ghost use Rattle.std.specs.Prelude.{◌≡◌, IfOk};
ghost use Rattle.aiger_text.specs.CircuitType.{ArePlaces};

use names_and_numbers::Name;
use std::alloc::{AllocError, Global};
use std::marker::Model;

/// A latch: its literal, the literal of its next value, and its first value.
#[derive(Clone, Copy, Debug, PartialEq, Eq)]
pub struct Latch {
    pub literal: u32,
    pub next: u32,
    pub reset: bool,
}

/// An and-gate: its literal and those of its two operands.
#[derive(Clone, Copy, Debug, PartialEq, Eq)]
pub struct Gate {
    pub literal: u32,
    pub left: u32,
    pub right: u32,
}

/// A circuit. Variable `v` has the literals `2 * v` and `2 * v + 1`; 0 is false and 1 is true.
#[derive(Debug, Drop)]
pub struct Circuit {
    pub variables: u32,
    pub inputs: Vec<u32>,
    pub latches: Vec<Latch>,
    pub outputs: Vec<u32>,
    pub gates: Vec<Gate>,
    pub input_names: Vec<Option<Name>>,
    pub output_names: Vec<Option<Name>>,
    /// The places of the gates, each behind those that its gate uses.
    pub(crate) order: Vec<usize>,
}

impl Model for Circuit {
    ghost use Rattle.aiger_text.specs.Circuit as parts;
    ghost use Rattle.aiger_text.specs.CircuitType.{IsCircuit, IsOrder};

    ghost Value = { parts.Circuit };

    ghost view = { λ c. record { variables = c.variables; inputs = c.inputs.items; latches = c.latches.items; outputs = c.outputs.items; gates = c.gates.items; input_names = c.input_names.items; output_names = c.output_names.items } };

    ghost invariant = { λ c. IsCircuit (record { variables = c.variables; inputs = c.inputs.items; latches = c.latches.items; outputs = c.outputs.items; gates = c.gates.items; input_names = c.input_names.items; output_names = c.output_names.items }) × IsOrder c.gates.items c.order.items };
}

impl Circuit {
    ghost use Rattle.aiger_text.specs.Circuit as parts;
    ghost use Rattle.aiger_text.specs.CircuitType.{IsCircuit, IsOrder, AreSorted};

    /// The circuit of these parts, in which each gate stands behind the gates that it uses.
    pub fn of_sorted_gates(
        alloc: Global,
        variables: u32,
        inputs: Vec<u32>,
        latches: Vec<Latch>,
        outputs: Vec<u32>,
        gates: Vec<Gate>,
        input_names: Vec<Option<Name>>,
        output_names: Vec<Option<Name>>,
    ) -> Result<Circuit, AllocError>
        requires circuit { let c : parts.Circuit = record { variables = variables; inputs = inputs.items; latches = latches.items; outputs = outputs.items; gates = gates.items; input_names = input_names.items; output_names = output_names.items } in
            IsCircuit c }
        requires sorted { AreSorted gates.items }
        ensures { IfOk result (λ c. c ≡ record { variables = variables; inputs = inputs.items; latches = latches.items; outputs = outputs.items; gates = gates.items; input_names = input_names.items; output_names = output_names.items }) }
    {
        let order = places(alloc, gates.len())?;
        Ok(Circuit {
            variables,
            inputs,
            latches,
            outputs,
            gates,
            input_names,
            output_names,
            order,
        })
    }

    /// The circuit of these parts, with the places of its gates in an order in which they can be worked out.
    pub(crate) fn of_ordered_gates(
        variables: u32,
        inputs: Vec<u32>,
        latches: Vec<Latch>,
        outputs: Vec<u32>,
        gates: Vec<Gate>,
        input_names: Vec<Option<Name>>,
        output_names: Vec<Option<Name>>,
        order: Vec<usize>,
    ) -> Circuit
        requires circuit { let c : parts.Circuit = record { variables = variables; inputs = inputs.items; latches = latches.items; outputs = outputs.items; gates = gates.items; input_names = input_names.items; output_names = output_names.items } in
            IsCircuit c }
        requires order { IsOrder gates.items order.items }
        ensures { result ≡ record { variables = variables; inputs = inputs.items; latches = latches.items; outputs = outputs.items; gates = gates.items; input_names = input_names.items; output_names = output_names.items } }
    {
        Circuit {
            variables,
            inputs,
            latches,
            outputs,
            gates,
            input_names,
            output_names,
            order,
        }
    }
}

/// The numbers below a count.
fn places(alloc: Global, count: usize) -> Result<Vec<usize>, AllocError>
    ensures { IfOk result (λ places. ArePlaces count places.items) }
{
    let mut places = Vec::with_capacity(alloc, count)?;
    for place in 0..count {
        places.push(place)?;
    }
    Ok(places)
}
