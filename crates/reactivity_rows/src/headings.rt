//! Headings of rows.

use aiger_text::cut_at;
use names_and_numbers::{Cursor, read_number};

/// What is said of a text: `==== STEPS SLIP NAME`.
#[derive(Clone, Copy)]
pub(crate) struct Heading {
    /// The steps of the game's budget.
    pub(crate) steps: u64,
    pub(crate) slip: Slip,
}

/// What the game is told wrongly, or has too little room for. The test isn't told so.
#[derive(Clone, Copy, PartialEq, Eq)]
pub(crate) enum Slip {
    None,
    /// The machines are of the other kind.
    Kind,
    /// The formula is the one that the system keeps from being true.
    Opposite,
    /// There is room for two positions.
    Positions,
    /// There is room for two edges.
    Edges,
    /// There is room for 300 bytes.
    Bytes,
}

impl Heading {
    /// What a line says; a number that it doesn't say is 0, and where it names no slip there is none.
    pub(crate) fn of(line: &[u8]) -> Heading {
        let (_mark, rest) = word(line);
        let (steps, rest) = word(rest);
        let (slip, _name) = word(rest);
        Heading {
            steps: number(steps),
            slip: slip_of(slip),
        }
    }
}

/// What stands before the first space, and what stands behind it.
fn word(line: &[u8]) -> (&[u8], &[u8]) {
    match cut_at(line, b' ') {
        Some(parts) => parts,
        None => (line, &[]),
    }
}

fn number(word: &[u8]) -> u64 {
    let mut cursor = Cursor::new(word);
    read_number(&mut cursor, u64::MAX).unwrap_or(0)
}

fn slip_of(word: &[u8]) -> Slip {
    match word {
        b"kind" => Slip::Kind,
        b"opposite" => Slip::Opposite,
        b"positions" => Slip::Positions,
        b"edges" => Slip::Edges,
        b"bytes" => Slip::Bytes,
        _ => Slip::None,
    }
}
