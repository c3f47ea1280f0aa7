ghost use Rattle.std.specs.Prelude.{◌≡◌, ℕ, ◌+◌, ◌-◌, ◌*◌, ◌/◌, ◌^◌, ◌<◌, ◌≤◌, Bool, IfOk, OnOk, All, drop, length, if◌then◌else◌};
ghost use Rattle.text_limits.specs.declared.TheConstants.{SMALL_LIMITS};
ghost use Rattle.machine_model.specs.Machine.{MachineModel, size_of};
ghost use Rattle.gate_build.specs.Gates.{split_of};
ghost use Rattle.gate_build.specs.Table.{latches_for, latches_of, next_bit, written_bit};
ghost use Rattle.gate_build.specs.Bits.{bit_of};

use crate::gates::{Operands, ite};
use indexmap::IndexSet;
use letters_and_lassos::Letter;
use machine_model::Machine;
use std::alloc::AllocError;

/// A bit of a machine's table.
#[derive(Clone, Copy)]
pub(crate) enum Bit {
    /// This bit of the next state.
    Next(u32),
    /// This written signal.
    Written(u32),
}

/// The number of binary digits of `states - 1`.
pub(crate) fn latches_for(states: u32) -> u32
    requires { states ≤ 8 }
    ensures value { result ≡ latches_for states }
    ensures few { result ≤ 3 }
{
    if states <= 1 {
        0
    } else if states <= 2 {
        1
    } else if states <= 4 {
        2
    } else {
        3
    }
}

/// The number of codes of some latches.
fn codes_for(latches: u32) -> u32
    requires { latches ≤ 3 }
    ensures value { result ≡ 2 ^ latches }
    ensures some { 0 < result }
{
    1 << latches
}

/// A bit of a machine's table at a number, which stands for a state's code and a read letter above it.
fn bit_at(machine: &Machine, bit: Bit, number: u32) -> bool
    requires few { size_of machine.now ≤ SMALL_LIMITS.machine }
    requires within { number < 2 ^ latches_of machine.now * 2 ^ machine.now.reads }
    ensures { result ≡ bit_of machine.now bit number }
{
    let codes = codes_for(latches_for(machine.size()));
    let state = number % codes;
    let letter = number / codes;
    if state >= machine.size() {
        return false;
    }
    match bit {
        Bit::Next(j) => Letter(u64::from(machine.next(state, letter))).has(j),
        Bit::Written(o) => Letter(u64::from(machine.writes_at(state, letter))).has(o),
    }
}

/// The literal of a bit of a machine's table, split on the literals from number `depth` on, where those before it make
/// `value`. It takes time linear in the numbers that are left.
pub(crate) fn split(
    first: u32,
    gates: &mut IndexSet<Operands>,
    machine: &Machine,
    bit: Bit,
    literals: &[u32],
    depth: u32,
    value: u32,
) -> Result<u32, AllocError>
    requires few { size_of machine.now ≤ SMALL_LIMITS.machine }
    requires room { first + length gates.old.keys + 3 * 2 ^ (length literals.now - depth) ≤ 2 ^ 30 }
    requires literals { All (λ l. l < 2 ^ 31) literals.now }
    requires whole { 2 ^ length literals.now ≡ 2 ^ latches_of machine.now * 2 ^ machine.now.reads }
    requires small { length literals.now ≤ 11 }
    requires depth { depth ≤ length literals.now }
    requires value { value < 2 ^ depth }
    ensures value { IfOk result (λ l. split_of first (bit_of machine.now bit) (drop depth literals.now) value (2 ^ depth) gates.old.keys ≡ record { gates = gates.new.keys; literal = l }) }
    ensures fits { IfOk result (λ l. l < 2 ^ 31) }
    ensures grown { OnOk result (length gates.new.keys + 3 ≤ length gates.old.keys + 3 * 2 ^ (length literals.now - depth)) }
{
    if depth as usize == literals.len() {
        return Ok(constant(bit_at(machine, bit, value)));
    }
    let weight = weight_of(depth);
    let one = split(
        first,
        gates,
        machine,
        bit,
        literals,
        depth + 1,
        value + weight,
    )?;
    let other = split(first, gates, machine, bit, literals, depth + 1, value)?;
    let chosen = ite(first, gates, literals[depth as usize], one, other)?;
    Ok(chosen)
}

/// The literal of a truth.
fn constant(value: bool) -> u32
    ensures value { result ≡ (if value then 1 else 0) }
    ensures fits { result < 2 ^ 31 }
{
    if value { 1 } else { 0 }
}

/// What the bit at a depth counts.
fn weight_of(depth: u32) -> u32
    requires { depth < 12 }
    ensures value { result ≡ 2 ^ depth }
    ensures small { result < 2 ^ 12 }
{
    1 << depth
}
