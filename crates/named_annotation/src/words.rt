//! The words of an annotation's lines.

ghost use Rattle.std.specs.Prelude.{◌≡◌, ◌==◌, ◌+◌, ◌*◌, ◌^◌, ◌<◌, ◌≤◌, IfOk, IfSome, None, Some, option_map};
ghost use Rattle.std.specs.Option.{option_copied};
ghost use Rattle.named_annotation.specs.NamedText.{behind_state, counts_from, counts_in, is_numbered, may_be, numbers_in};
ghost use Rattle.named_annotation.specs.Parts.{IsWithinLimits};

use aiger_text::{cut_at, number_within};
use annot_check::number_in;
use std::alloc::{AllocError, Global};

/// The most pairs.
const MOST_PAIRS: u64 = 1_000_000;

/// The most states.
const MOST_STATES: u64 = 20_000;

/// The most steps of the circuit: one for each pair and each letter that is read.
const MOST_STEPS: u64 = 67_108_864;

/// What names a state begins so.
const STATE: &[u8] = b"state ";

/// How many pairs and states a head says.
#[derive(Clone, Copy)]
pub(crate) struct Counts {
    pub(crate) pairs: u64,
    pub(crate) states: u64,
}

/// How many pairs and states a head says, by what stands behind its first word, for a circuit with so many inputs.
pub(crate) fn counts_in(inputs: u32, word: &[u8]) -> Option<Counts>
    requires { inputs < 17 }
    ensures value { result ≡ counts_in inputs word.now }
    ensures within { IfSome result IsWithinLimits }
{
    let (pairs, states) = cut_at(word, b' ')?;
    counts_from(inputs, pairs, states)
}

fn counts_from(inputs: u32, first: &[u8], second: &[u8]) -> Option<Counts>
    requires { inputs < 17 }
    ensures value { result ≡ counts_from inputs first.now second.now }
    ensures within { IfSome result IsWithinLimits }
{
    let pairs = number_within(first, MOST_PAIRS)?;
    let states = number_within(second, MOST_STATES)?;
    if may_be(inputs, pairs, states) {
        Some(Counts { pairs, states })
    } else {
        None
    }
}

/// Whether there may be so many pairs of a circuit with so many inputs, and so many states.
fn may_be(inputs: u32, pairs: u64, states: u64) -> bool
    requires inputs { inputs < 17 }
    requires pairs { pairs ≤ 1000000 }
    ensures { result ≡ may_be inputs pairs states }
{
    states > 0 && pairs * letter_count(inputs) <= MOST_STEPS
}

/// How many letters so many signals have.
fn letter_count(signals: u32) -> u64
    requires { signals < 17 }
    ensures value { result ≡ 2 ^ signals }
    ensures small { result < 65537 }
{
    1 << signals
}

/// What stands behind the first word in a line that names a state.
pub(crate) fn behind_state(line: &[u8]) -> Option<&[u8]>
    ensures { option_copied result ≡ behind_state line.now }
{
    if line.starts_with(STATE) {
        Some(&line[STATE.len()..])
    } else {
        None
    }
}

/// The numbers that the words of a line write, where each is a number of 32 bits.
pub(crate) fn numbers_in(alloc: Global, line: &[u8]) -> Result<Option<Vec<u32>>, AllocError>
    ensures { IfOk result (λ numbers. option_map (λ ns. ns.items) numbers ≡ numbers_in line.now) }
{
    let mut numbers: Vec<u32> = Vec::new(alloc);
    let mut rest = line;
    while let Some((word, behind)) = cut_at(rest, b' ') {
        let Some(number) = number_in(word) else {
            return Ok(None);
        };
        numbers.push(number)?;
        rest = behind;
    }
    let Some(number) = number_in(rest) else {
        return Ok(None);
    };
    numbers.push(number)?;
    Ok(Some(numbers))
}

/// Whether numbers begin with this number and a counter.
pub(crate) fn is_numbered(number: usize, numbers: &[u32]) -> bool
    ensures { result ≡ is_numbered number numbers.now }
{
    numbers.len() > 1 && numbers[0] as usize == number
}
