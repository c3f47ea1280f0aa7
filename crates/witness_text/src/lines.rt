//! What the lines of a witness state, and their numbers.
ghost use Rattle.std.specs.Prelude.{◌≡◌, ◌<◌, ◌^◌, length};
ghost use Rattle.witness_text.specs.Places.{IsNumbered, always_line as line_of_always, gate_line as line_of_gate, latch_line as line_of_latch, lines_of_logs, log_line as line_of_log, part_line as line_of_part};
ghost use Rattle.witness_text.specs.Reading.{witness_of};

use std::marker::Model;
use truth_witness::{ObligationLog, Operands, Part, Witness};

/// What may stand behind the line `end`.
#[derive(Clone, Copy, Debug, PartialEq, Eq)]
pub enum Following {
    Nothing,
    Anything,
}

/// How many latches, gates and parts a witness has, as its first line says.
#[derive(Clone, Copy, Debug, PartialEq, Eq)]
pub struct WitnessCounts {
    /// At most 65,536.
    pub latches: u32,
    /// At most 1,000,000.
    pub gates: u32,
    /// From 1 to 256.
    pub parts: u32,
}

/// What the lines of a witness state, up to the first that isn't what is wanted there. Where a line is missing, so is what stands behind it.
#[derive(Drop)]
pub struct WitnessLines {
    /// The number of the first line.
    pub first: u64,
    /// Of the first line, where it is good.
    pub counts: Option<WitnessCounts>,
    pub latches: Vec<u32>,
    pub gates: Vec<Operands>,
    pub always: Option<u32>,
    pub parts: Vec<Part>,
    /// The logs of the obligations in their order. The last one has the entries before the bad line.
    pub logs: Vec<ObligationLog>,
    /// How many of the logs have as many entries as their heads say: all of them, or all but the last.
    pub whole_logs: usize,
    /// The first line that isn't what is wanted there.
    pub bad: Option<u64>,
}

impl Model for WitnessLines {
    ghost use Rattle.witness_text.specs.Reading as reading;

    ghost Value = { reading.WitnessLines };

    ghost view = { λ w. record { first = w.first; counts = w.counts; latches = w.latches.items; gates = w.gates.items; always = w.always; parts = w.parts.items; logs = w.logs.items; whole_logs = w.whole_logs; bad = w.bad } };
}

/// A witness, and the logs of its obligations that were read.
#[derive(Drop)]
pub struct WitnessProof {
    pub witness: Witness,
    pub logs: Vec<ObligationLog>,
}

impl Model for WitnessProof {
    ghost use Rattle.witness_text.specs.Reading as reading;

    ghost Value = { reading.WitnessProof };

    ghost view = { λ p. record { witness = p.witness; logs = p.logs.items } };
}

/// How many lines logs have: one for each head, and one for each entry.
fn lines_of(logs: &[ObligationLog]) -> u64
    requires { lines_of_logs logs.now < 2 ^ 64 }
    ensures { result ≡ lines_of_logs logs.now }
{
    let mut lines = 0;
    for log in logs {
        lines += 1 + log.entries.len() as u64;
    }
    lines
}

impl WitnessLines {
    /// The number of the line of a latch that was read.
    pub fn latch_line(&self, latch: usize) -> u64
        requires numbered { IsNumbered self.now }
        requires within { latch < length self.now.latches }
        ensures { result ≡ line_of_latch self.now latch }
    {
        self.first + 1 + latch as u64
    }

    /// The number of the line of a gate that was read.
    pub fn gate_line(&self, gate: usize) -> u64
        requires numbered { IsNumbered self.now }
        requires within { gate < length self.now.gates }
        ensures { result ≡ line_of_gate self.now gate }
    {
        self.first + 1 + self.latches.len() as u64 + gate as u64
    }

    /// The number of the line `always`, which was read.
    pub fn always_line(&self) -> u64
        requires { IsNumbered self.now }
        ensures { result ≡ line_of_always self.now }
    {
        self.first + 1 + self.latches.len() as u64 + self.gates.len() as u64
    }

    /// The number of the line of a part that was read.
    pub fn part_line(&self, part: usize) -> u64
        requires numbered { IsNumbered self.now }
        requires within { part < length self.now.parts }
        ensures { result ≡ line_of_part self.now part }
    {
        self.always_line() + 1 + part as u64
    }

    /// The number of the line of a log's head, which was read. Linear in the number of logs.
    pub fn log_line(&self, log: usize) -> u64
        requires numbered { IsNumbered self.now }
        requires within { log < length self.now.logs }
        ensures { result ≡ line_of_log self.now log }
    {
        self.always_line() + 1 + self.parts.len() as u64 + lines_of(&self.logs[..log])
    }

    /// The witness and the logs that were read, where all lines up to the last part were.
    pub fn into_witness(self) -> Option<WitnessProof>
        ensures { result ≡ witness_of self }
    {
        let WitnessLines {
            counts,
            latches,
            gates,
            always,
            parts,
            logs,
            ..
        } = self;
        if parts.len() != counts?.parts as usize {
            return None;
        }
        let witness = Witness {
            latches,
            gates,
            always: always?,
            parts,
        };
        Some(WitnessProof { witness, logs })
    }
}
