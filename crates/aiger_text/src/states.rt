ghost use Rattle.std.specs.Prelude.{◌≡◌, ◌≢◌, ℕ, ◌+◌, ◌*◌, ◌/◌, ◌%◌, ◌<◌, ◌≤◌, ◌&&◌, false, IfOk, All, Bool, map, length, replicate, slice_index, slice_index_or, slice_set};
ghost use Rattle.aiger_text.specs.Circuit.{literal_value, literal_values};
ghost use Rattle.aiger_text.specs.Values.{valuation, AreVariables, HaveRoom, Puts, Settles};
ghost use Rattle.aiger_text.specs.CircuitType.{IsOrder};
ghost use Rattle.aiger_text.specs.Step.{IsSettled};

use crate::circuits::{Circuit, Gate, Latch};
use std::alloc::{AllocError, Global};
use std::marker::Model;

/// A circuit between two steps: the values of its inputs and latches, and of its outputs in the last step.
#[derive(Debug, Drop)]
pub struct CircuitState {
    /// The value of each variable in the last step; that of variable 0 is false.
    values: Vec<bool>,
    inputs: Vec<bool>,
    latches: Vec<bool>,
    outputs: Vec<bool>,
}

impl Model for CircuitState {
    ghost use Rattle.std.specs.Prelude.{◌≡◌, ◌<◌, ◌-◌, length, false, slice_index_or};
    ghost use Rattle.aiger_text.specs.Step.{StateModel};

    ghost Value = { StateModel };

    ghost view = { λ s. record { variables = length s.values.items - 1; inputs = s.inputs.items; latches = s.latches.items; outputs = s.outputs.items } };

    ghost invariant = { λ s. (0 < length s.values.items) × (slice_index_or s.values.items 0 false ≡ false) };
}

impl CircuitState {
    ghost use Rattle.aiger_text.specs.Step.{StateModel, IsStateOf};

    /// The latches have their resets; inputs and outputs are false.
    pub fn new(alloc: Global, circuit: &Circuit) -> Result<CircuitState, AllocError>
        ensures fits { IfOk result (IsStateOf circuit.now) }
        ensures resets { IfOk result (λ s. s.latches ≡ map (λ latch. latch.reset) circuit.now.latches) }
        ensures inputs { IfOk result (λ s. s.inputs ≡ replicate (length circuit.now.inputs) false) }
        ensures outputs { IfOk result (λ s. s.outputs ≡ replicate (length circuit.now.outputs) false) }
    {
        Ok(CircuitState {
            values: all_false(alloc, circuit.variables as usize + 1)?,
            inputs: all_false(alloc, circuit.inputs.len())?,
            latches: resets(alloc, &circuit.latches)?,
            outputs: all_false(alloc, circuit.outputs.len())?,
        })
    }

    /// Gives input `i` this value.
    pub fn set_input(&mut self, i: usize, value: bool)
        requires { i < length self.old.inputs }
        ensures { self.new ≡ record self.old { inputs = slice_set self.old.inputs i value } }
    {
        self.inputs[i] = value;
    }

    /// Gives latch `i` this value.
    pub fn set_latch(&mut self, i: usize, value: bool)
        requires { i < length self.old.latches }
        ensures { self.new ≡ record self.old { latches = slice_set self.old.latches i value } }
    {
        self.latches[i] = value;
    }

    /// The value of output `i` in the last step.
    pub fn output(&self, i: usize) -> bool
        requires { i < length self.now.outputs }
        ensures { result ≡ slice_index_or self.now.outputs i false }
    {
        self.outputs[i]
    }

    /// The value of latch `i`.
    pub fn latch(&self, i: usize) -> bool
        requires { i < length self.now.latches }
        ensures { result ≡ slice_index_or self.now.latches i false }
    {
        self.latches[i]
    }
}

impl Circuit {
    ghost use Rattle.aiger_text.specs.Step.{IsStateOf, IsStep};

    /// Sets the outputs by the inputs and latches, and moves the latches. It is linear in the variables' and
    /// the gates' numbers, and takes no memory.
    pub fn step(&self, state: &mut CircuitState)
        requires { IsStateOf self.now state.old }
        ensures step { IsStep self.now state.old state.new }
        ensures fits { IsStateOf self.now state.new }
    {
        settle(&mut state.values, self, &state.inputs, &state.latches);
        take_outputs(&mut state.outputs, &self.outputs, &state.values);
        take_latches(&mut state.latches, &self.latches, &state.values);
    }
}

fn all_false(alloc: Global, count: usize) -> Result<Vec<bool>, AllocError>
    ensures { IfOk result (λ values. values.items ≡ replicate count false) }
{
    vec![in alloc; false; count]
}

fn resets(alloc: Global, latches: &[Latch]) -> Result<Vec<bool>, AllocError>
    ensures { IfOk result (λ values. values.items ≡ map (λ latch. latch.reset) latches.now) }
{
    latches.iter().map(|latch| latch.reset).collect(alloc)
}

/// The value of a literal, where the values of the variables are these.
fn value_of(values: &[bool], literal: u32) -> bool
    requires room { literal / 2 < length values.now }
    requires zero { slice_index_or values.now 0 false ≡ false }
    ensures { result ≡ literal_value (valuation values.now) literal }
{
    values[(literal / 2) as usize] ^ (literal % 2 == 1)
}

/// Works out the values of all variables from those of the inputs and latches.
fn settle(values: &mut [bool], circuit: &Circuit, inputs: &[bool], latches: &[bool])
    requires room { length values.old ≡ circuit.now.variables + 1 }
    requires zero { slice_index_or values.old 0 false ≡ false }
    requires inputs { length inputs.now ≡ length circuit.now.inputs }
    requires latches { length latches.now ≡ length circuit.now.latches }
    ensures settled { IsSettled circuit.now inputs.now latches.now values.new }
    ensures zero { slice_index_or values.new 0 false ≡ false }
{
    put_inputs(values, &circuit.inputs, inputs);
    put_latches(values, &circuit.latches, latches);
    put_gates(values, &circuit.gates, &circuit.order);
}

/// The value that a gate has, where the values of its operands' variables are these.
fn gate_value(values: &[bool], gate: &Gate) -> bool
    requires left { gate.now.left / 2 < length values.now }
    requires right { gate.now.right / 2 < length values.now }
    requires zero { slice_index_or values.now 0 false ≡ false }
    ensures { result ≡ (literal_value (valuation values.now) gate.now.left && literal_value (valuation values.now) gate.now.right) }
{
    value_of(values, gate.left) && value_of(values, gate.right)
}

/// Gives the variables of the literals these values.
fn put_inputs(values: &mut [bool], literals: &[u32], bits: &[bool])
    requires places { length bits.now ≡ length literals.now }
    requires variables { AreVariables (length values.old) literals.now }
    ensures { Puts literals.now bits.now values.old values.new }
{
    for i in 0..literals.len() {
        values[(literals[i] / 2) as usize] = bits[i];
    }
}

/// Gives the variables of the latches these values.
fn put_latches(values: &mut [bool], latches: &[Latch], bits: &[bool])
    requires places { length bits.now ≡ length latches.now }
    requires variables { AreVariables (length values.old) (map (λ latch. latch.literal) latches.now) }
    ensures { Puts (map (λ latch. latch.literal) latches.now) bits.now values.old values.new }
{
    for i in 0..latches.len() {
        values[(latches[i].literal / 2) as usize] = bits[i];
    }
}

/// Gives each gate's variable its value, one behind the other.
fn put_gates(values: &mut [bool], gates: &[Gate], order: &[usize])
    requires zero { slice_index_or values.old 0 false ≡ false }
    requires order { IsOrder gates.now order.now }
    requires variables { AreVariables (length values.old) (map (λ gate. gate.literal) gates.now) }
    requires left { HaveRoom (length values.old) (map (λ gate. gate.left) gates.now) }
    requires right { HaveRoom (length values.old) (map (λ gate. gate.right) gates.now) }
    ensures { Settles gates.now values.old values.new }
{
    for place in order {
        let value = gate_value(values, &gates[*place]);
        values[(gates[*place].literal / 2) as usize] = value;
    }
}

/// Takes the values of the literals.
fn take_outputs(bits: &mut [bool], literals: &[u32], values: &[bool])
    requires places { length bits.old ≡ length literals.now }
    requires zero { slice_index_or values.now 0 false ≡ false }
    requires room { HaveRoom (length values.now) literals.now }
    ensures { bits.new ≡ literal_values (valuation values.now) literals.now }
{
    for i in 0..literals.len() {
        bits[i] = value_of(values, literals[i]);
    }
}

/// Takes the values of the latches' next literals.
fn take_latches(bits: &mut [bool], latches: &[Latch], values: &[bool])
    requires places { length bits.old ≡ length latches.now }
    requires zero { slice_index_or values.now 0 false ≡ false }
    requires room { HaveRoom (length values.now) (map (λ latch. latch.next) latches.now) }
    ensures { bits.new ≡ map (λ latch. literal_value (valuation values.now) latch.next) latches.now }
{
    for i in 0..latches.len() {
        bits[i] = value_of(values, latches[i].next);
    }
}
