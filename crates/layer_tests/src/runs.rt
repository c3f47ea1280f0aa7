//! Run lassos of a machine.
ghost use Rattle.std.specs.Prelude.{◌<◌, All, IfOk};

use crate::problems::digit;
use letters_and_lassos::{Kind, Lasso, Letter, Side};
use machine_model::{Machine, Row, RunLasso, run_lasso};
use std::test::Fail;

/// Letters of one signal.
fn letters(rt: &HostRuntime, digits: &[u8]) -> Result<Vec<Letter>, Fail>
    ensures { IfOk result (λ letters. All (λ letter. letter.0 < 2) letters.items) }
{
    let mut letters = Vec::new(rt.alloc());
    for digit in digits {
        letters.push(Letter(u64::from(*digit == b'1')))?;
    }
    Ok(letters)
}

/// A digit for each letter.
fn push_letters(text: &mut Vec<u8>, letters: &[Letter]) -> Result<(), Fail> {
    for letter in letters {
        text.push(digit((letter.0 % 10) as u32))?;
    }
    text.push(b' ')?;
    Ok(())
}

/// The letters of the stem, those of the ring, and the states.
fn told(rt: &HostRuntime, run: &RunLasso) -> Result<Vec<u8>, Fail> {
    let mut text = Vec::new(rt.alloc());
    push_letters(&mut text, run.word.stem())?;
    push_letters(&mut text, run.word.ring())?;
    for state in &run.states {
        text.push(digit(*state))?;
    }
    Ok(text)
}

/// The run of the two-state machine that writes what it read last.
fn delayed(rt: &HostRuntime, side: Side, stem: &[u8], ring: &[u8]) -> Result<Vec<u8>, Fail> {
    let rows = [(0, 0), (1, 0), (0, 1), (1, 1)].map(|(next, writes)| Row { next, writes });
    let machine = Machine::new(Kind::Moore, 1, 1, Vec::from_slice(rt.alloc(), &rows)?)?;
    let reads = Lasso::new(letters(rt, stem)?, letters(rt, ring)?)?;
    told(rt, &run_lasso(rt.alloc(), &machine, side, &reads)?)
}

#[test]
fn writes_what_it_read_last(rt: HostRuntime) -> Result<(), Fail> {
    for (side, stem, ring, want) in [
        // One read signal that is set and then not: the output is 0, 1, 0, 1 in turn.
        (
            Side::System,
            b"".as_slice(),
            b"10".as_slice(),
            b" 12 01".as_slice(),
        ),
        // The ring closes where the run comes back to a state.
        (Side::System, b"1", b"0", b"12 0 010"),
        // The environment's inputs are the low bits.
        (Side::Environment, b"1", b"0", b"21 0 010"),
    ] {
        assert_eq!(rt; delayed(&rt, side, stem, ring)?.as_slice(), want);
    }
    Ok(())
}
