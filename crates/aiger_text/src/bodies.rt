//! The lines of numbers behind the header: inputs, latches, outputs and gates.

ghost use Rattle.std.specs.Prelude.{◌≡◌, ◌+◌, ◌*◌, ◌/◌, ◌≤◌, [], OnOk, IfErr, IfOk, IfSome, Ok, length, false, ◌<◌};
ghost use Rattle.text_limits.specs.declared.TheConstants.{CIRCUIT_VARIABLES};
ghost use Rattle.aiger_text.specs.CircuitFile.{defines, definable_in, literal_in, latch_in, gate_in, with_input, with_latch, with_output, with_gate, with_line, and_then, is_whole, no_lines, body_from, lines_of};
ghost use Rattle.aiger_text.specs.Sound.{IsSoundDraft, total};
ghost use Rattle.aiger_text.specs.Statements.{stated, shown, IsMarked, IsFaultOf};

use crate::circuits::{Gate, Latch};
use crate::counts::Counts;
use crate::faults::CircuitFault;
use crate::forms::{definable_in, gate_in, latch_in, literal_in};
use crate::words::cut_at;
use std::alloc::{AllocError, Global};

/// What the lines so far state.
#[derive(Drop)]
pub(crate) struct Statements {
    pub(crate) counts: Counts,
    pub(crate) inputs: Vec<u32>,
    pub(crate) latches: Vec<Latch>,
    pub(crate) outputs: Vec<u32>,
    pub(crate) gates: Vec<Gate>,
    /// Whether a line so far defines the variable.
    pub(crate) defined: Vec<bool>,
}

impl Statements {
    pub(crate) fn new(alloc: Global, counts: Counts) -> Result<Statements, AllocError>
        requires { counts.variables ≤ CIRCUIT_VARIABLES }
        ensures none { IfOk result (λ s. stated s ≡ no_lines counts) }
        ensures marked { IfOk result IsMarked }
        ensures sound { IfOk result (λ s. IsSoundDraft (stated s)) }
    {
        Ok(Statements {
            counts,
            inputs: Vec::new(alloc),
            latches: Vec::new(alloc),
            outputs: Vec::new(alloc),
            gates: Vec::new(alloc),
            defined: vec![in alloc; false; counts.variables as usize + 1]?,
        })
    }

    /// Whether a line so far defines the variable.
    pub(crate) fn is_defined(&self, variable: u32) -> bool
        requires { IsMarked self.now }
        ensures { result ≡ defines (stated self.now) variable }
    {
        self.defined
            .get(variable as usize)
            .copied()
            .unwrap_or(false)
    }

    fn take_input(&mut self, number: u64, line: &[u8]) -> Result<(), CircuitFault>
        requires marked { IsMarked self.old }
        requires sound { IsSoundDraft (stated self.old) }
        requires room { length self.old.inputs.items < self.old.counts.inputs }
        ensures sound { OnOk result (IsSoundDraft (stated self.new)) }
        ensures counts { self.new.counts ≡ self.old.counts }
        ensures total { OnOk result (total (stated self.new) ≡ total (stated self.old) + 1) }
        ensures ok { OnOk result (with_input (stated self.old) number (definable_in self.old.counts line.now) ≡ Ok (stated self.new)) }
        ensures marked { OnOk result (IsMarked self.new) }
        ensures err { IfErr result (IsFaultOf (with_input (stated self.old) number (definable_in self.old.counts line.now))) }
    {
        let Some(literal) = definable_in(self.counts, line) else {
            return Err(CircuitFault::BadLine(number));
        };
        if self.is_defined(literal / 2) {
            return Err(CircuitFault::DefinedTwice(number));
        }
        self.inputs.push(literal)?;
        self.defined[(literal / 2) as usize] = true;
        Ok(())
    }

    fn take_latch(&mut self, number: u64, line: &[u8]) -> Result<(), CircuitFault>
        requires marked { IsMarked self.old }
        requires sound { IsSoundDraft (stated self.old) }
        requires room { length self.old.latches.items < self.old.counts.latches }
        ensures sound { OnOk result (IsSoundDraft (stated self.new)) }
        ensures counts { self.new.counts ≡ self.old.counts }
        ensures total { OnOk result (total (stated self.new) ≡ total (stated self.old) + 1) }
        ensures ok { OnOk result (and_then (with_latch (stated self.old) number) (latch_in self.old.counts number line.now) ≡ Ok (stated self.new)) }
        ensures marked { OnOk result (IsMarked self.new) }
        ensures err { IfErr result (IsFaultOf (and_then (with_latch (stated self.old) number) (latch_in self.old.counts number line.now))) }
    {
        let latch = match latch_in(self.counts, number, line) {
            Ok(latch) => latch,
            Err(fault) => return Err(fault),
        };
        if self.is_defined(latch.literal / 2) {
            return Err(CircuitFault::DefinedTwice(number));
        }
        self.latches.push(latch)?;
        self.defined[(latch.literal / 2) as usize] = true;
        Ok(())
    }

    fn take_output(&mut self, number: u64, line: &[u8]) -> Result<(), CircuitFault>
        requires marked { IsMarked self.old }
        requires sound { IsSoundDraft (stated self.old) }
        ensures sound { OnOk result (IsSoundDraft (stated self.new)) }
        ensures counts { self.new.counts ≡ self.old.counts }
        ensures total { OnOk result (total (stated self.new) ≡ total (stated self.old) + 1) }
        ensures ok { OnOk result (with_output (stated self.old) number (literal_in self.old.counts line.now) ≡ Ok (stated self.new)) }
        ensures marked { OnOk result (IsMarked self.new) }
        ensures err { IfErr result (IsFaultOf (with_output (stated self.old) number (literal_in self.old.counts line.now))) }
    {
        let Some(literal) = literal_in(self.counts, line) else {
            return Err(CircuitFault::BadLine(number));
        };
        self.outputs.push(literal)?;
        Ok(())
    }

    fn take_gate(&mut self, number: u64, line: &[u8]) -> Result<(), CircuitFault>
        requires marked { IsMarked self.old }
        requires sound { IsSoundDraft (stated self.old) }
        requires room { length self.old.gates.items < self.old.counts.gates }
        ensures sound { OnOk result (IsSoundDraft (stated self.new)) }
        ensures counts { self.new.counts ≡ self.old.counts }
        ensures total { OnOk result (total (stated self.new) ≡ total (stated self.old) + 1) }
        ensures ok { OnOk result (with_gate (stated self.old) number (gate_in self.old.counts line.now) ≡ Ok (stated self.new)) }
        ensures marked { OnOk result (IsMarked self.new) }
        ensures err { IfErr result (IsFaultOf (with_gate (stated self.old) number (gate_in self.old.counts line.now))) }
    {
        let Some(gate) = gate_in(self.counts, line) else {
            return Err(CircuitFault::BadLine(number));
        };
        if self.is_defined(gate.literal / 2) {
            return Err(CircuitFault::DefinedTwice(number));
        }
        self.gates.push(gate)?;
        self.defined[(gate.literal / 2) as usize] = true;
        Ok(())
    }

    /// Takes the next line, which states an input, a latch, an output or a gate.
    fn take_line(&mut self, number: u64, line: &[u8]) -> Result<(), CircuitFault>
        requires marked { IsMarked self.old }
        requires sound { IsSoundDraft (stated self.old) }
        requires wanted { is_whole (stated self.old) ≡ false }
        ensures sound { OnOk result (IsSoundDraft (stated self.new)) }
        ensures counts { self.new.counts ≡ self.old.counts }
        ensures total { OnOk result (total (stated self.new) ≡ total (stated self.old) + 1) }
        ensures ok { OnOk result (with_line (stated self.old) number line.now ≡ Ok (stated self.new)) }
        ensures marked { OnOk result (IsMarked self.new) }
        ensures err { IfErr result (IsFaultOf (with_line (stated self.old) number line.now)) }
    {
        if self.inputs.len() < self.counts.inputs as usize {
            self.take_input(number, line)
        } else if self.latches.len() < self.counts.latches as usize {
            self.take_latch(number, line)
        } else if (self.outputs.len() as u64) < self.counts.outputs {
            self.take_output(number, line)
        } else {
            self.take_gate(number, line)
        }
    }

    /// Whether all that the header counts is there.
    fn is_whole(&self) -> bool
        ensures { result ≡ is_whole (stated self.now) }
    {
        self.counts.inputs as usize <= self.inputs.len()
            && self.counts.latches as usize <= self.latches.len()
            && self.counts.outputs <= self.outputs.len() as u64
            && self.counts.gates as usize <= self.gates.len()
    }
}

/// What the lines of numbers state, the number of the line behind them, and the text from there on.
#[derive(Drop)]
pub(crate) struct Body<'a> {
    pub(crate) statements: Statements,
    pub(crate) number: u64,
    pub(crate) rest: &'a [u8],
}

/// Reads the lines of numbers of the text behind the header.
pub(crate) fn read_body(
    alloc: Global,
    counts: Counts,
    text: &[u8],
) -> Result<Body<'_>, CircuitFault>
    requires { counts.variables ≤ CIRCUIT_VARIABLES }
    ensures ok { IfOk result (λ body. body_from (no_lines counts) 2 (lines_of text.now) ≡ Ok (shown body)) }
    ensures number { IfOk result (λ body. body.number + length body.rest.now ≤ length text.now + 2) }
    ensures marked { IfOk result (λ body. IsMarked body.statements) }
    ensures sound { IfOk result (λ body. IsSoundDraft (stated body.statements)) }
    ensures counts { IfOk result (λ body. body.statements.counts ≡ counts) }
    ensures total { IfOk result (λ body. total (stated body.statements) ≤ length text.now + 2) }
    ensures err { IfErr result (IsFaultOf (body_from (no_lines counts) 2 (lines_of text.now))) }
{
    let mut statements = Statements::new(alloc, counts)?;
    let mut rest = text;
    let mut number = 2;
    while !statements.is_whole() {
        let Some((line, behind)) = cut_at(rest, b'\n') else {
            return Err(CircuitFault::BadLine(number));
        };
        match statements.take_line(number, line) {
            Ok(()) => {}
            Err(fault) => return Err(fault),
        }
        rest = behind;
        number += 1;
    }
    Ok(Body {
        statements,
        number,
        rest,
    })
}
