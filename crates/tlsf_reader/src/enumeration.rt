//! The descent for enumerations.

ghost use Rattle.std.specs.Prelude.{◌≡◌, ◌==◌, ◌&&◌, ◌||◌, ◌<◌, ◌≤◌, length, map, true, OnOk, IfSome};
ghost use Rattle.std.specs.Option.{is_some};
ghost use Rattle.tlsf_syntax.specs.Texts.{bits_of, digits_bits};
ghost use Rattle.tlsf_syntax.specs.TextReading.{pattern_read, patterns_read, begins_member, members_read};
ghost use Rattle.tlsf_reader.specs.Seen.{seen};
ghost use Rattle.tlsf_syntax.specs.Seen.{pattern_seen, member_seen};
ghost use Rattle.tlsf_reader.specs.Descent.{IsRead};
ghost use Rattle.tlsf_reader.specs.TextDescent.{IsBits, IsMoreOfValue, AreAppended};
ghost use Rattle.tlsf_reader.specs.TextView.{each};

use crate::ahead::Ahead;
use crate::lexeme::Lexeme;
use crate::node;
use crate::rest::Refusal;
use std::alloc::{AllocError, Global};
use tlsf_syntax::{Member, Pattern, Span};
use tlsf_tokens::Symbol;

/// Whether a byte is the digit 0 or 1.
fn is_bit(digit: u8) -> bool
    ensures { result ≡ (digit == 48 || digit == 49) }
{
    digit == b'0' || digit == b'1'
}

/// Whether all digits are 0 or 1.
fn are_bits(digits: &[u8]) -> bool
    ensures { result ≡ is_some (digits_bits digits.now) }
{
    for digit in digits {
        if !is_bit(*digit) {
            return false;
        }
    }
    true
}

/// Whether a lexeme may stand in a value: digits 0 and 1, or `*`.
fn is_value(lexeme: Lexeme<'_>) -> bool
    ensures { result ≡ is_some (bits_of lexeme.entry.symbol lexeme.entry.text.now) }
{
    match lexeme.symbol {
        Symbol::Number => are_bits(lexeme.text),
        Symbol::Star => true,
        _ => false,
    }
}

/// Appends the bits of digits 0 and 1.
fn append_digits(bits: &mut Vec<Option<bool>>, digits: &[u8]) -> Result<(), AllocError>
    requires { is_some (digits_bits digits.now) ≡ true }
    ensures { OnOk result (AreAppended (digits_bits digits.now) bits.old.items bits.new.items) }
{
    for digit in digits {
        bits.push(Some(*digit == b'1'))?;
    }
    Ok(())
}

/// Appends the bits of a lexeme of a value, its leftmost character first.
fn append_bits(bits: &mut Vec<Option<bool>>, lexeme: Lexeme<'_>) -> Result<(), AllocError>
    requires { is_some (bits_of lexeme.symbol lexeme.text.now) ≡ true }
    ensures { OnOk result (AreAppended (bits_of lexeme.entry.symbol lexeme.entry.text.now) bits.old.items bits.new.items) }
{
    match lexeme.symbol {
        Symbol::Star => Ok(bits.push(None)?),
        _ => append_digits(bits, lexeme.text),
    }
}

/// The next lexeme, which has to be one of a value. It is passed.
fn expect_value<'a>(ahead: &mut Ahead<'a>) -> Result<Lexeme<'a>, Refusal>
    ensures next { IsBits ahead.old ahead.new result }
    ensures shorter { OnOk result (length ahead.new < length ahead.old) }
{
    let refusal = ahead.refusal();
    let Some(first) = ahead.take() else {
        return Err(refusal);
    };
    if is_value(first) {
        Ok(first)
    } else {
        Err(refusal)
    }
}

/// Whether the lexeme goes on with a value that ended at this byte.
fn goes_on(end: u64, lexeme: Lexeme<'_>) -> bool
    ensures { result ≡ (end == lexeme.entry.start && is_some (bits_of lexeme.entry.symbol lexeme.entry.text.now)) }
{
    end == lexeme.start && is_value(lexeme)
}

/// The next lexeme, where it goes on with a value that ended at this byte. It is passed.
fn more_of_value<'a>(ahead: &mut Ahead<'a>, end: u64) -> Option<Lexeme<'a>>
    ensures next { IsMoreOfValue end ahead.old ahead.new result }
    ensures shorter { IfSome result (λ _. length ahead.new < length ahead.old) }
{
    match ahead.front() {
        [first, ..] => {
            if goes_on(end, *first) {
                ahead.take()
            } else {
                None
            }
        }
        [] => None,
    }
}

/// A value: numbers of digits 0 and 1 and `*` that stand together without a gap.
fn pattern(alloc: Global, ahead: &mut Ahead<'_>) -> Result<Pattern, Refusal>
    ensures read { IsRead pattern_seen (λ d. pattern_read d ahead.old) ahead.new result }
    ensures shorter { OnOk result (length ahead.new < length ahead.old) }
{
    let first = expect_value(ahead)?;
    let mut bits = Vec::new(alloc);
    append_bits(&mut bits, first)?;
    let mut end = first.end;
    while let Some(next) = more_of_value(ahead, end) {
        append_bits(&mut bits, next)?;
        end = next.end;
    }
    Ok(Pattern {
        bits,
        span: Span {
            start: first.start,
            end,
        },
    })
}

/// One or more values with commas between.
fn patterns(alloc: Global, ahead: &mut Ahead<'_>) -> Result<Vec<Pattern>, Refusal>
    ensures read { IsRead (each pattern_seen) (λ d. patterns_read d ahead.old) ahead.new result }
    ensures shorter { OnOk result (length ahead.new < length ahead.old) }
{
    let mut patterns = Vec::new(alloc);
    loop {
        let pattern = pattern(alloc, ahead)?;
        patterns.push(pattern)?;
        let Some(_) = ahead.next_if(Symbol::Comma) else {
            return Ok(patterns);
        };
    }
}

/// Whether a name and a colon stand in front: the next member.
fn begins_member(front: &[Lexeme<'_>]) -> bool
    ensures { result ≡ begins_member (map seen front.now) }
{
    match front {
        [first, second, ..] => first.symbol == Symbol::Ident && second.symbol == Symbol::Colon,
        _ => false,
    }
}

/// One or more members of an enumeration.
pub(crate) fn members(alloc: Global, ahead: &mut Ahead<'_>) -> Result<Vec<Member>, Refusal>
    ensures read { IsRead (each member_seen) (λ d. members_read d ahead.old) ahead.new result }
    ensures shorter { OnOk result (length ahead.new < length ahead.old) }
{
    let mut members = Vec::new(alloc);
    loop {
        let name = ahead.expect(Symbol::Ident)?;
        let _ = ahead.expect(Symbol::Colon)?;
        let values = patterns(alloc, ahead)?;
        let word = node::word(alloc, name)?;
        members.push(Member { word, values })?;
        if !begins_member(ahead.front()) {
            return Ok(members);
        }
    }
}
