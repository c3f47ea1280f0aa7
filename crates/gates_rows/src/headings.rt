//! Headings of rows.

use aiger_text::cut_at;
use letters_and_lassos::{Kind, Side};
use names_and_numbers::{Cursor, read_number};

/// What is said of a circuit: `==== GATES SIDE KIND SLIP NAME`.
#[derive(Clone, Copy)]
pub(crate) struct Heading {
    /// The gates that ABC makes of it.
    pub(crate) gates: u64,
    pub(crate) side: Side,
    /// The kind of the system's machines.
    pub(crate) kind: Kind,
    pub(crate) slip: Slip,
}

/// What a layer is told wrongly. The test isn't told so.
#[derive(Clone, Copy)]
pub(crate) enum Slip {
    None,
    /// Two states have the same code.
    Code,
    /// The start hasn't the code with which the latches begin.
    Start,
    /// The decomposition is told the opposite of an output.
    Target,
    /// The sums of products are told the opposite of an output.
    Products,
    /// Substitutions are told that no target sees any column.
    Care,
    /// A Mealy machine is told to be a Moore machine.
    Kind,
}

impl Heading {
    /// What a line says; a number that it doesn't say is 0, and where it names no slip there is none.
    pub(crate) fn of(line: &[u8]) -> Heading {
        let (_mark, rest) = word(line);
        let (gates, rest) = word(rest);
        let (side, rest) = word(rest);
        let (kind, rest) = word(rest);
        let (slip, _name) = word(rest);
        Heading {
            gates: number(gates),
            side: side_of(side),
            kind: kind_of(kind),
            slip: slip_of(slip),
        }
    }
}

/// What stands before the first space, and what stands behind it.
fn word(line: &[u8]) -> (&[u8], &[u8]) {
    match cut_at(line, b' ') {
        Some(parts) => parts,
        None => (line, &[]),
    }
}

fn number(word: &[u8]) -> u64 {
    let mut cursor = Cursor::new(word);
    read_number(&mut cursor, u64::MAX).unwrap_or(0)
}

fn side_of(word: &[u8]) -> Side {
    match word {
        b"environment" => Side::Environment,
        _ => Side::System,
    }
}

fn kind_of(word: &[u8]) -> Kind {
    match word {
        b"moore" => Kind::Moore,
        _ => Kind::Mealy,
    }
}

fn slip_of(word: &[u8]) -> Slip {
    match word {
        b"code" => Slip::Code,
        b"start" => Slip::Start,
        b"target" => Slip::Target,
        b"products" => Slip::Products,
        b"care" => Slip::Care,
        b"kind" => Slip::Kind,
        _ => Slip::None,
    }
}
