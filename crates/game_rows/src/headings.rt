//! Headings of rows.

use aiger_text::cut_at;
use names_and_numbers::{Cursor, read_number};

/// What is said of a text: `==== STEPS GATES SIDES SLIP NAME`.
#[derive(Clone, Copy)]
pub(crate) struct Heading {
    /// The steps of the games' budget.
    pub(crate) steps: u64,
    /// The gates of the circuit that the search for machines of each size finds.
    pub(crate) gates: u64,
    pub(crate) sides: Sides,
    pub(crate) slip: Slip,
}

/// Who plays.
#[derive(Clone, Copy)]
pub(crate) enum Sides {
    Both,
    System,
    Environment,
}

/// What the games are told wrongly, or have too little room for. The test isn't told so.
#[derive(Clone, Copy)]
pub(crate) enum Slip {
    None,
    /// The automata have no edges.
    Edges,
    /// The automata have no rejecting states.
    Marks,
    /// The edges lead nowhere but to their source.
    Ends,
    /// The machines are of the other kind.
    Kind,
    /// Each side has the automaton of the other.
    Exchange,
    /// There is room for two positions.
    Positions,
    /// There is room for 300 bytes of positions.
    Bytes,
    /// A reduction isn't told the lines that end with `// untold`.
    Untold,
}

impl Heading {
    /// What a line says; a number that it doesn't say is 0, and where it names no slip there is none.
    pub(crate) fn of(line: &[u8]) -> Heading {
        let (_mark, rest) = word(line);
        let (steps, rest) = word(rest);
        let (gates, rest) = word(rest);
        let (sides, rest) = word(rest);
        let (slip, _name) = word(rest);
        Heading {
            steps: number(steps),
            gates: number(gates),
            sides: sides_of(sides),
            slip: slip_of(slip),
        }
    }
}

/// What stands before the first space, and what stands behind it.
fn word(line: &[u8]) -> (&[u8], &[u8]) {
    match cut_at(line, b' ') {
        Some(parts) => parts,
        None => (line, &[]),
    }
}

fn number(word: &[u8]) -> u64 {
    let mut cursor = Cursor::new(word);
    read_number(&mut cursor, u64::MAX).unwrap_or(0)
}

fn sides_of(word: &[u8]) -> Sides {
    match word {
        b"system" => Sides::System,
        b"environment" => Sides::Environment,
        _ => Sides::Both,
    }
}

fn slip_of(word: &[u8]) -> Slip {
    match word {
        b"edges" => Slip::Edges,
        b"marks" => Slip::Marks,
        b"ends" => Slip::Ends,
        b"kind" => Slip::Kind,
        b"exchange" => Slip::Exchange,
        b"positions" => Slip::Positions,
        b"bytes" => Slip::Bytes,
        b"untold" => Slip::Untold,
        _ => Slip::None,
    }
}
