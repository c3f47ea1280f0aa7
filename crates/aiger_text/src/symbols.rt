//! Symbol lines, and what ends a circuit's file.

ghost use Rattle.std.specs.Prelude.{◌≡◌, ◌+◌, ◌^◌, ◌<◌, ◌≤◌, IfOk, IfErr, IfSome, OnOk, Ok, Some, None, length, replicate, option_map};
ghost use Rattle.aiger_text.specs.CircuitFile.{named_by, lines_for, symbol_in, with_symbol, named_at, ending_from, lines_of};
ghost use Rattle.aiger_text.specs.Statements.{IsFaultOf};
ghost use Rattle.aiger_text.specs.Labels.{named, shown_symbol, shown_ending, HavePlaces};

use crate::faults::CircuitFault;
use crate::words::{cut_at, number_within};
use names_and_numbers::Name;
use std::alloc::{AllocError, Global};

/// What a symbol line names.
#[derive(Clone, Copy, Debug, PartialEq, Eq)]
pub enum Named {
    AnInput,
    ALatch,
    AnOutput,
}

impl Named {
    ghost use Rattle.aiger_text.specs.CircuitText.{named_letter};

    /// The letter that the line begins with.
    pub fn letter(self) -> u8
        ensures { result ≡ named_letter self }
    {
        match self {
            Named::AnInput => b'i',
            Named::ALatch => b'l',
            Named::AnOutput => b'o',
        }
    }
}

/// What a line that begins with this letter names.
fn named_by(letter: u8) -> Option<Named>
    ensures { result ≡ named_by letter }
{
    if letter == b'i' {
        Some(Named::AnInput)
    } else if letter == b'l' {
        Some(Named::ALatch)
    } else if letter == b'o' {
        Some(Named::AnOutput)
    } else {
        None
    }
}

/// The names of inputs and outputs, and the lines of all names, 0 where there is none.
#[derive(Drop)]
pub(crate) struct Labels {
    pub(crate) inputs: Vec<Option<Name>>,
    pub(crate) outputs: Vec<Option<Name>>,
    pub(crate) input_lines: Vec<u64>,
    pub(crate) latch_lines: Vec<u64>,
    pub(crate) output_lines: Vec<u64>,
}

/// What a symbol line states.
#[derive(Clone, Copy)]
struct Symbol<'a> {
    named: Named,
    place: usize,
    name: &'a [u8],
}

impl Labels {
    /// No names, for so many inputs, latches and outputs.
    pub(crate) fn new(
        alloc: Global,
        inputs: usize,
        latches: usize,
        outputs: usize,
    ) -> Result<Labels, AllocError>
        ensures none { IfOk result (λ labels. named labels ≡ record { inputs = replicate inputs None; outputs = replicate outputs None; input_lines = replicate inputs 0; latch_lines = replicate latches 0; output_lines = replicate outputs 0 }) }
        ensures places { IfOk result HavePlaces }
    {
        Ok(Labels {
            inputs: no_names(alloc, inputs)?,
            outputs: no_names(alloc, outputs)?,
            input_lines: vec![in alloc; 0; inputs]?,
            latch_lines: vec![in alloc; 0; latches]?,
            output_lines: vec![in alloc; 0; outputs]?,
        })
    }

    /// The lines of the names of one sort.
    fn lines_for(&self, sort: Named) -> &[u64]
        ensures { result.now ≡ lines_for (named self.now) sort }
    {
        match sort {
            Named::AnInput => &self.input_lines,
            Named::ALatch => &self.latch_lines,
            Named::AnOutput => &self.output_lines,
        }
    }

    /// The symbol that a line states, where its place is there.
    fn symbol_in<'a>(&self, line: &'a [u8]) -> Option<Symbol<'a>>
        ensures symbol { option_map shown_symbol result ≡ symbol_in (named self.now) line.now }
        ensures place { IfSome result (λ symbol. symbol.place < length (lines_for (named self.now) symbol.named)) }
    {
        let [letter, text @ ..] = line else {
            return None;
        };
        let sort = named_by(*letter)?;
        let (digits, name) = cut_at(text, b' ')?;
        let count = self.lines_for(sort).len();
        let place = number_within(digits, count as u64)? as usize;
        if place < count && !name.is_empty() {
            Some(Symbol {
                named: sort,
                place,
                name,
            })
        } else {
            None
        }
    }

    /// Gives the place the name of line `number`.
    fn put(&mut self, alloc: Global, number: u64, symbol: Symbol<'_>) -> Result<(), AllocError>
        requires places { HavePlaces self.old }
        requires place { symbol.place < length (lines_for (named self.old) symbol.named) }
        ensures put { OnOk result (named self.new ≡ named_at (named self.old) number symbol.entry.named symbol.entry.place symbol.entry.name.now) }
        ensures places { OnOk result (HavePlaces self.new) }
    {
        match symbol.named {
            Named::AnInput => {
                self.inputs[symbol.place] = Some(Name::new(alloc, symbol.name)?);
                self.input_lines[symbol.place] = number;
            }
            Named::ALatch => {
                self.latch_lines[symbol.place] = number;
            }
            Named::AnOutput => {
                self.outputs[symbol.place] = Some(Name::new(alloc, symbol.name)?);
                self.output_lines[symbol.place] = number;
            }
        }
        Ok(())
    }

    /// Takes the next line, which names a place that has no name yet.
    fn take_line(&mut self, alloc: Global, number: u64, line: &[u8]) -> Result<(), CircuitFault>
        requires { HavePlaces self.old }
        ensures ok { OnOk result (with_symbol (named self.old) number (symbol_in (named self.old) line.now) ≡ Ok (named self.new)) }
        ensures places { OnOk result (HavePlaces self.new) }
        ensures err { IfErr result (IsFaultOf (with_symbol (named self.old) number (symbol_in (named self.old) line.now))) }
    {
        let Some(symbol) = self.symbol_in(line) else {
            return Err(CircuitFault::BadLine(number));
        };
        if self.lines_for(symbol.named)[symbol.place] != 0 {
            return Err(CircuitFault::BadLine(number));
        }
        self.put(alloc, number, symbol)?;
        Ok(())
    }
}

/// So many places without a name.
fn no_names(alloc: Global, count: usize) -> Result<Vec<Option<Name>>, AllocError>
    ensures { IfOk result (λ names. names.items ≡ replicate count None) }
{
    let mut names = Vec::with_capacity(alloc, count)?;
    for _ in 0..count {
        names.push(None)?;
    }
    Ok(names)
}

/// The names, the number of the line behind them, and the comment where there is one.
#[derive(Drop)]
pub(crate) struct Ending<'a> {
    pub(crate) labels: Labels,
    pub(crate) number: u64,
    pub(crate) comment: Option<&'a [u8]>,
}

/// Reads the symbol lines of the text from line `first` on, up to the line `c` or the end.
pub(crate) fn read_ending(
    alloc: Global,
    mut labels: Labels,
    first: u64,
    text: &[u8],
) -> Result<Ending<'_>, CircuitFault>
    requires places { HavePlaces labels }
    requires number { first + length text.now < 2 ^ 64 }
    ensures ok { IfOk result (λ ending. ending_from (named labels) first (lines_of text.now) ≡ Ok (shown_ending ending)) }
    ensures err { IfErr result (IsFaultOf (ending_from (named labels) first (lines_of text.now))) }
{
    let mut rest = text;
    let mut number = first;
    while let Some((line, behind)) = cut_at(rest, b'\n') {
        if line == b"c".as_slice() {
            return Ok(Ending {
                labels,
                number,
                comment: Some(behind),
            });
        }
        match labels.take_line(alloc, number, line) {
            Ok(()) => {}
            Err(fault) => return Err(fault),
        }
        rest = behind;
        number += 1;
    }
    if rest.is_empty() {
        Ok(Ending {
            labels,
            number,
            comment: None,
        })
    } else {
        Err(CircuitFault::BadLine(number))
    }
}
