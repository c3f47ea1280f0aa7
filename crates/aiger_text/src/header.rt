//! The first line of a file.

ghost use Rattle.std.specs.Prelude.{◌≡◌, ◌+◌, ◌<◌, ◌≤◌, IfOk, IfErr, IsTrue, Ok, length, ◌==◌, ◌||◌, ◌&&◌, map, min, nat_lt, true, [], slice_index_or, option_map};
ghost use Rattle.std.specs.List.{list_all};
ghost use Rattle.std.specs.Char.{is_ascii_digit};
ghost use Rattle.text_limits.specs.declared.TheConstants.{CIRCUIT_VARIABLES};
ghost use Rattle.names_and_numbers.specs.Numerals.{decimal_value};
ghost use Rattle.aiger_text.specs.Words.{is_numeral};
ghost use Rattle.aiger_text.specs.Columns.{digit_at};
ghost use Rattle.aiger_text.specs.CircuitFile.{words_of, behind_mark, header_of, header_of_words, counts_in};
ghost use Rattle.aiger_text.specs.Statements.{IsFaultOf};

use crate::counts::Counts;
use crate::faults::CircuitFault;
use crate::words::{cut_at, is_numeral, number_within};
use std::alloc::{AllocError, Global};
use text_limits::CIRCUIT_VARIABLES;

/// The counts of a header, where outputs above `room` count as so many.
pub(crate) fn read_header(alloc: Global, line: &[u8], room: u64) -> Result<Counts, CircuitFault>
    ensures ok { IfOk result (λ counts. counts_in room (header_of line.now) ≡ Ok counts) }
    ensures size { IfOk result (λ counts. counts.variables ≤ CIRCUIT_VARIABLES) }
    ensures room { IfOk result (λ counts. counts.inputs + (counts.latches + counts.gates) ≤ counts.variables) }
    ensures err { IfErr result (IsFaultOf (counts_in room (header_of line.now))) }
{
    let Some(text) = behind_mark(line) else {
        return Err(CircuitFault::BadHeader(1));
    };
    let words = words_of(alloc, text)?;
    counts_of(&words, room)
}

/// What follows the mark at the line's begin.
fn behind_mark(line: &[u8]) -> Option<&[u8]>
    ensures { option_map (λ text. text.now) result ≡ behind_mark line.now }
{
    let [first, second, third, fourth, text @ ..] = line else {
        return None;
    };
    if *first == b'a' && *second == b'a' && *third == b'g' && *fourth == b' ' {
        Some(text)
    } else {
        None
    }
}

/// The words between spaces.
fn words_of(alloc: Global, text: &[u8]) -> Result<Vec<&[u8]>, AllocError>
    ensures { IfOk result (λ words. map (λ word. word.now) words.items ≡ words_of text.now) }
{
    let mut words = Vec::new(alloc);
    let mut rest = text;
    while let Some((word, behind)) = cut_at(rest, b' ') {
        words.push(word)?;
        rest = behind;
    }
    words.push(rest)?;
    Ok(words)
}

/// The counts that the words state.
fn counts_of(words: &[&[u8]], room: u64) -> Result<Counts, CircuitFault>
    ensures counts { result ≡ counts_in room (header_of_words (map (λ word. word.now) words.now)) }
    ensures size { IfOk result (λ counts. counts.variables ≤ CIRCUIT_VARIABLES) }
    ensures room { IfOk result (λ counts. counts.inputs + (counts.latches + counts.gates) ≤ counts.variables) }
{
    if words.len() < 5 {
        return Err(CircuitFault::BadHeader(1));
    }
    if words.len() > 9 {
        return Err(CircuitFault::BadHeader(1));
    }
    if !are_numerals(words) {
        return Err(CircuitFault::BadHeader(1));
    }
    counts_of_numerals(words, room)
}

/// The counts that five to nine numerals state.
fn counts_of_numerals(words: &[&[u8]], room: u64) -> Result<Counts, CircuitFault>
    requires five { 5 ≤ length words.now }
    requires nine { length words.now ≤ 9 }
    requires numerals { list_all is_numeral (map (λ word. word.now) words.now) ≡ true }
    ensures counts { result ≡ counts_in room (header_of_words (map (λ word. word.now) words.now)) }
    ensures size { IfOk result (λ counts. counts.variables ≤ CIRCUIT_VARIABLES) }
    ensures room { IfOk result (λ counts. counts.inputs + (counts.latches + counts.gates) ≤ counts.variables) }
{
    let variables = word_at(words, 0);
    let inputs = word_at(words, 1);
    let latches = word_at(words, 2);
    let gates = word_at(words, 4);
    if sum_exceeds(inputs, latches, gates, variables) {
        return Err(CircuitFault::BadHeader(1));
    }
    let most = u64::from(CIRCUIT_VARIABLES);
    let Some(size) = number_within(variables, most) else {
        return Err(CircuitFault::TooLarge(1));
    };
    if !are_zeros(&words[5..]) {
        return Err(CircuitFault::Unsupported(1));
    }
    Ok(Counts {
        variables: size as u32,
        inputs: capped(inputs, most) as u32,
        latches: capped(latches, most) as u32,
        outputs: capped(word_at(words, 3), room),
        gates: capped(gates, most) as u32,
    })
}

/// One of the words.
fn word_at<'a>(words: &[&'a [u8]], place: usize) -> &'a [u8]
    requires place { place < length words.now }
    requires numerals { list_all is_numeral (map (λ word. word.now) words.now) ≡ true }
    ensures word { result.now ≡ slice_index_or (map (λ word. word.now) words.now) place [] }
    ensures numeral { is_numeral result.now ≡ true }
    ensures digits { list_all is_ascii_digit result.now ≡ true }
{
    words[place]
}

fn are_numerals(words: &[&[u8]]) -> bool
    ensures { result ≡ list_all is_numeral (map (λ word. word.now) words.now) }
{
    for word in words {
        if !is_numeral(word) {
            return false;
        }
    }
    true
}

/// Whether all of these numerals are 0.
fn are_zeros(words: &[&[u8]]) -> bool
    requires { list_all is_numeral (map (λ word. word.now) words.now) ≡ true }
    ensures { result ≡ list_all (λ n. n == 0) (map decimal_value (map (λ word. word.now) words.now)) }
{
    for word in words {
        match number_within(word, 0) {
            Some(_) => {}
            None => return false,
        }
    }
    true
}

/// The number that a numeral writes, or `most` where it is greater.
fn capped(word: &[u8], most: u64) -> u64
    requires { is_numeral word.now ≡ true }
    ensures capped { result ≡ min (decimal_value word.now) most }
{
    number_within(word, most).unwrap_or(most)
}

/// The digit of a numeral at a place, counted from its last one; 0 before its first.
fn digit_at(word: &[u8], place: usize) -> u8
    requires { list_all is_ascii_digit word.now ≡ true }
    ensures digit { result ≡ digit_at word.now place }
    ensures below { result < 10 }
{
    if place < word.len() {
        word[word.len() - 1 - place] - b'0'
    } else {
        0
    }
}

/// Whether the sum of three numerals exceeds a fourth. It goes by their digits, which may be any number.
fn sum_exceeds(first: &[u8], second: &[u8], third: &[u8], most: &[u8]) -> bool
    requires first { list_all is_ascii_digit first.now ≡ true }
    requires second { list_all is_ascii_digit second.now ≡ true }
    requires third { list_all is_ascii_digit third.now ≡ true }
    requires most { list_all is_ascii_digit most.now ≡ true }
    ensures { result ≡ nat_lt (decimal_value most.now) (decimal_value first.now + (decimal_value second.now + decimal_value third.now)) }
{
    let places = longest_of(first, second, third, most);
    let mut carry = 0;
    let mut above = false;
    for place in 0..places {
        let total = digit_at(first, place)
            + digit_at(second, place)
            + digit_at(third, place)
            + carry;
        above = stays_above(total % 10, digit_at(most, place), above);
        carry = total / 10;
    }
    carry > 0 || above
}

/// The length of the longer word.
fn longest(first: &[u8], second: &[u8]) -> usize
    ensures first { length first.now ≤ result }
    ensures second { length second.now ≤ result }
{
    if first.len() < second.len() {
        second.len()
    } else {
        first.len()
    }
}

/// The length of the longest word.
fn longest_of(first: &[u8], second: &[u8], third: &[u8], fourth: &[u8]) -> usize
    ensures first { length first.now ≤ result }
    ensures second { length second.now ≤ result }
    ensures third { length third.now ≤ result }
    ensures fourth { length fourth.now ≤ result }
{
    let front = longest(first, second);
    let back = longest(third, fourth);
    if front < back { back } else { front }
}

/// Whether a number is above another, by their first digits and by whether what follows is.
fn stays_above(digit: u8, other: u8, above: bool) -> bool
    ensures { result ≡ (nat_lt other digit || ((digit == other) && above)) }
{
    if digit == other { above } else { digit > other }
}
