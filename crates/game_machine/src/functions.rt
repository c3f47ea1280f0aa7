//! The functions of a machine's bits, over the bits of its state and the signals that it reads.

use crate::class_machines::ClassMachine;
use crate::gates::Gates;
use game_arena::{Literals, Meter, Player, Stop};
use std::alloc::{AllocError, Global};
use std::collections::HashMap;

/// A move of a machine, where its state has this code.
#[derive(Clone, Copy)]
struct Row {
    code: u32,
    when: Literals,
    writes: u64,
    next: u32,
}

/// A bit that a circuit has a function for: of the next state's code, or a signal of what is written.
#[derive(Clone, Copy)]
pub(crate) enum Bit {
    Next(u32),
    Written(u32),
}

/// A variable that functions are split on: a bit of the state's code, or a signal that is read, with its literal in the circuit.
#[derive(Clone, Copy)]
struct Variable {
    of: Source,
    literal: u32,
}

#[derive(Clone, Copy)]
enum Source {
    Code(u32),
    Read(u32),
}

/// The rows of a machine and the gates that were made of them.
#[derive(Drop)]
pub(crate) struct Functions {
    rows: Vec<Row>,
    variables: Vec<Variable>,
    pub(crate) gates: Gates,
    /// Counts a step for each row of each set of rows.
    meter: Meter,
    /// How many more rows the sets of rows of one bit may have whose literals are kept.
    room: usize,
    alloc: Global,
}

/// For one bit, sets of so many rows in all are kept with their literals.
const MOST_KEPT: usize = 20_000_000;

/// No circuit has more gates.
const MOST_GATES: usize = 100_000;

/// Bit k of a number.
fn has(number: u64, bit: u32) -> bool {
    bit < 64 && (number >> bit) & 1 == 1
}

/// The signals of a mask, in rising order.
pub(crate) fn signals_of(alloc: Global, mask: u64) -> Result<Vec<u32>, AllocError> {
    let mut signals = Vec::new(alloc);
    for signal in 0u32..64 {
        if has(mask, signal) {
            signals.push(signal)?;
        }
    }
    Ok(signals)
}

/// The number of bits of the codes of so many states.
pub(crate) fn code_bits(states: usize) -> u32 {
    usize::BITS.saturating_sub(states.saturating_sub(1).leading_zeros())
}

impl Row {
    /// What the row asks of a variable.
    fn asks(&self, source: Source) -> Option<bool> {
        match source {
            Source::Code(bit) => Some(has(u64::from(self.code), bit)),
            Source::Read(signal) if has(self.when.on, signal) => Some(true),
            Source::Read(signal) if has(self.when.off, signal) => Some(false),
            Source::Read(_) => None,
        }
    }

    fn value(&self, bit: Bit) -> bool {
        match bit {
            Bit::Next(place) => has(u64::from(self.next), place),
            Bit::Written(signal) => has(self.writes, signal),
        }
    }
}

impl Functions {
    /// The rows of a machine. In the circuit the signals that are read come first, then the bits of the state's code.
    pub(crate) fn new(
        alloc: Global,
        machine: &ClassMachine,
        meter: Meter,
    ) -> Result<Functions, AllocError> {
        let mut rows = Vec::new(alloc);
        for (code, moves) in (0u32..u32::MAX).zip(&machine.states) {
            for step in moves {
                rows.push(Row {
                    code,
                    when: step.when,
                    writes: step.writes,
                    next: step.next,
                })?;
            }
        }
        let bits = code_bits(machine.states.len());
        let variables = variables_of(alloc, machine.player, bits)?;
        let first = u32::try_from(variables.len())
            .unwrap_or(0)
            .saturating_add(1);
        Ok(Functions {
            rows,
            variables,
            gates: Gates::new(alloc, first),
            meter,
            room: 0,
            alloc,
        })
    }

    /// The literal of the function of a bit.
    pub(crate) fn literal(&mut self, bit: Bit) -> Result<u32, Stop> {
        self.room = MOST_KEPT;
        let mut rows = Vec::new(self.alloc);
        for place in 0..u32::try_from(self.rows.len()).unwrap_or(0) {
            rows.push(place)?;
        }
        let mut made = HashMap::new(self.alloc);
        let left = self.variables.len();
        let literal = self.split(bit, rows, left, &mut made)?;
        Ok(literal.unwrap_or(0))
    }

    /// The function of a bit on the letters of these rows, by the last `left` variables; None where there are no rows, so that any
    /// function will do.
    fn split(
        &mut self,
        bit: Bit,
        rows: Vec<u32>,
        left: usize,
        made: &mut HashMap<Vec<u32>, u32>,
    ) -> Result<Option<u32>, Stop> {
        self.take(rows.len())?;
        let Some(value) = self.first_value(&rows, bit) else {
            return Ok(None);
        };
        if left == 0 || self.have_value(&rows, bit, value) {
            return Ok(Some(u32::from(value)));
        }
        if let Some(literal) = made.get(rows.as_slice()).copied() {
            return Ok(Some(literal));
        }
        let Some(variable) = self.variable(left) else {
            return Ok(Some(u32::from(value)));
        };
        let set = self.half(&rows, variable.of, true)?;
        let unset = self.half(&rows, variable.of, false)?;
        let then = self.split(bit, set, left - 1, made)?;
        let otherwise = self.split(bit, unset, left - 1, made)?;
        let literal = match (then, otherwise) {
            (Some(then), Some(otherwise)) => self.gates.choice(variable.literal, then, otherwise)?,
            (Some(one), None) | (None, Some(one)) => one,
            (None, None) => return Ok(None),
        };
        self.keep(rows, literal, made)?;
        Ok(Some(literal))
    }

    /// Takes the steps for a set of so many rows, or says that there are no more, or that there are too many gates.
    fn take(&mut self, rows: usize) -> Result<(), Stop> {
        if self.gates.operands.len() > MOST_GATES {
            return Err(Stop::Bytes);
        }
        self.meter.take(rows)
    }

    /// Keeps the literal of a set of rows, where there is room for it.
    fn keep(
        &mut self,
        rows: Vec<u32>,
        literal: u32,
        made: &mut HashMap<Vec<u32>, u32>,
    ) -> Result<(), AllocError> {
        if let Some(left) = self.room.checked_sub(rows.len()) {
            self.room = left;
            made.insert(rows, literal)?;
        }
        Ok(())
    }

    fn variable(&self, left: usize) -> Option<Variable> {
        self.variables
            .get(self.variables.len().saturating_sub(left))
            .copied()
    }

    fn first_value(&self, rows: &[u32], bit: Bit) -> Option<bool> {
        let first = rows.first()?;
        Some(self.rows.get(*first as usize)?.value(bit))
    }

    fn have_value(&self, rows: &[u32], bit: Bit, value: bool) -> bool {
        for place in rows {
            if let Some(row) = self.rows.get(*place as usize)
                && row.value(bit) != value
            {
                return false;
            }
        }
        true
    }

    /// The rows that go with a value of a variable.
    fn half(&self, rows: &[u32], source: Source, value: bool) -> Result<Vec<u32>, AllocError> {
        let mut half = Vec::with_capacity(self.alloc, rows.len())?;
        for place in rows {
            if let Some(row) = self.rows.get(*place as usize)
                && row.asks(source) != Some(!value)
            {
                half.push(*place)?;
            }
        }
        Ok(half)
    }
}

/// The bits of the state's code, and the signals that are read behind them.
fn variables_of(alloc: Global, player: Player, bits: u32) -> Result<Vec<Variable>, AllocError> {
    let signals = signals_of(alloc, player.reads())?;
    let mut variables = Vec::new(alloc);
    let reads = u32::try_from(signals.len()).unwrap_or(0);
    for bit in 0..bits {
        variables.push(Variable {
            of: Source::Code(bit),
            literal: reads
                .saturating_add(bit)
                .saturating_add(1)
                .saturating_mul(2),
        })?;
    }
    for (place, signal) in (1u32..u32::MAX).zip(&signals) {
        variables.push(Variable {
            of: Source::Read(*signal),
            literal: place.saturating_mul(2),
        })?;
    }
    Ok(variables)
}
