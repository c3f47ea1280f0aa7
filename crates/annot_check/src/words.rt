//! The words of an annotation's lines.

ghost use Rattle.std.specs.Prelude.{◌≡◌, ◌==◌, map, length, true, IfOk, IfSome};
ghost use Rattle.std.specs.List.{list_all};
ghost use Rattle.std.specs.Option.{option_copied};
ghost use Rattle.annot_check.specs.declared.pairs.Pair.{Pair as APair};
ghost use Rattle.annot_check.specs.AnnotationText.{behind_head, count_of, code_of, is_bit, is_code, number_in, pair_in, pair_of, state_in};

use crate::pairs::{Code, Pair};
use aiger_text::{cut_at, number_within};
use std::alloc::{AllocError, Global};
use text_limits::ANNOTATION_PAIRS;

/// What a head begins with.
const HEAD: &[u8] = b"annotation ";

/// What stands behind the word of a head, in a line that begins with it.
pub(crate) fn behind_head(line: &[u8]) -> Option<&[u8]>
    ensures { option_copied result ≡ behind_head line.now }
{
    if line.starts_with(HEAD) {
        Some(&line[HEAD.len()..])
    } else {
        None
    }
}

/// How many pairs a head says.
pub(crate) fn count_of(word: &[u8]) -> Option<u64>
    ensures { result ≡ count_of word.now }
{
    number_within(word, ANNOTATION_PAIRS)
}

fn is_bit(byte: u8) -> bool
    ensures { result ≡ is_bit byte }
{
    byte == b'0' || byte == b'1'
}

fn are_bits(word: &[u8]) -> bool
    ensures { result ≡ list_all is_bit word.now }
{
    word.iter().all(|byte| is_bit(*byte))
}

/// Whether a word has a digit for each latch, or is `-` where there is none.
fn is_code(word: &[u8], latches: u32) -> bool
    ensures { result ≡ is_code latches word.now }
{
    if latches == 0 {
        word == b"-".as_slice()
    } else {
        word.len() == latches as usize && are_bits(word)
    }
}

/// The values that such a word writes.
fn code_of(alloc: Global, word: &[u8], latches: u32) -> Result<Code, AllocError>
    requires { is_code latches word.now ≡ true }
    ensures code { IfOk result (λ code. code ≡ code_of latches word.now) }
    ensures long { IfOk result (λ code. length code ≡ latches) }
{
    if latches == 0 {
        return Ok(Code::new(Vec::new(alloc)));
    }
    Ok(Code::new(bits_of(alloc, word)?))
}

fn bits_of(alloc: Global, word: &[u8]) -> Result<Vec<bool>, AllocError>
    ensures { IfOk result (λ bits. bits.items ≡ map (λ b. b == 49) word.now) }
{
    word.iter().map(|byte| *byte == b'1').collect(alloc)
}

/// The number of 32 bits that a word writes.
pub fn number_in(word: &[u8]) -> Option<u32>
    ensures { result ≡ number_in word.now }
{
    let number = number_within(word, 4_294_967_295)?;
    Some(number as u32)
}

/// A state, where it is one of so many.
fn state_in(word: &[u8], states: u32) -> Option<u32>
    ensures { result ≡ state_in states word.now }
{
    let state = number_in(word)?;
    if state < states { Some(state) } else { None }
}

/// The pair that a line states, for so many latches and states.
pub(crate) fn pair_in(
    alloc: Global,
    line: &[u8],
    latches: u32,
    states: u32,
) -> Result<Option<Pair>, AllocError>
    ensures pair { IfOk result (λ pair. pair ≡ pair_in latches states line.now) }
    ensures long { IfOk result (λ pair. IfSome pair (λ (p : APair). length p.code ≡ latches)) }
{
    let Some((code, rest)) = cut_at(line, b' ') else {
        return Ok(None);
    };
    let Some((state, number)) = cut_at(rest, b' ') else {
        return Ok(None);
    };
    pair_of(alloc, latches, states, code, state, number)
}

/// The pair of these three words.
fn pair_of(
    alloc: Global,
    latches: u32,
    states: u32,
    code: &[u8],
    state: &[u8],
    number: &[u8],
) -> Result<Option<Pair>, AllocError>
    ensures pair { IfOk result (λ pair. pair ≡ pair_of latches states code.now state.now number.now) }
    ensures long { IfOk result (λ pair. IfSome pair (λ (p : APair). length p.code ≡ latches)) }
{
    let Some(state) = state_in(state, states) else {
        return Ok(None);
    };
    let Some(number) = number_in(number) else {
        return Ok(None);
    };
    if !is_code(code, latches) {
        return Ok(None);
    }
    let code = code_of(alloc, code, latches)?;
    Ok(Some(Pair {
        code,
        state,
        number,
    }))
}
