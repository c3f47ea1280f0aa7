//! The words of verdicts, what stands behind words, and the numbers of lines.
ghost use Rattle.std.specs.Prelude.{◌≡◌};
ghost use Rattle.std.specs.Option.{option_copied};
ghost use Rattle.document_text.specs.Header.{behind as behind_front, capped as capped_number, in_range as number_in_range};
ghost use Rattle.document_text.specs.Lines.{machine_words as words_of_machine, unknown_words as words_of_unknown};

use aiger_text::{is_numeral, number_within};
use letters_and_lassos::Side;

/// What the line of a verdict begins with that tells a machine, which is the least or needn't be.
pub(crate) fn machine_words(side: Side, least: bool) -> &'static [u8]
    ensures { result.now ≡ words_of_machine side least }
{
    match (side, least) {
        (Side::System, true) => b"verdict realizable ",
        (Side::Environment, true) => b"verdict unrealizable ",
        (Side::System, false) => b"verdict bounded system ",
        (Side::Environment, false) => b"verdict bounded environment ",
    }
}

/// What the line of a verdict begins with that names a log of this side.
pub(crate) fn unknown_words(side: Side) -> &'static [u8]
    ensures { result.now ≡ words_of_unknown side }
{
    match side {
        Side::System => b"verdict unknown entries system ",
        Side::Environment => b"verdict unknown entries environment ",
    }
}

/// What follows these bytes at a line's begin.
pub fn behind<'a>(line: &'a [u8], front: &[u8]) -> Option<&'a [u8]>
    ensures { option_copied result ≡ behind_front front.now line.now }
{
    if line.starts_with(front) {
        Some(&line[front.len()..])
    } else {
        None
    }
}

/// The number that a word writes, where it is in this range.
pub fn in_range(word: &[u8], least: u32, most: u32) -> Option<u32>
    ensures { result ≡ number_in_range least most word.now }
{
    let number = number_within(word, u64::from(most))?;
    if u64::from(least) <= number {
        Some(number as u32)
    } else {
        None
    }
}

/// The number that a word writes, the greatest one of 32 bits standing for a larger one.
pub fn capped(word: &[u8]) -> Option<u32>
    ensures { result ≡ capped_number word.now }
{
    if !is_numeral(word) {
        return None;
    }
    match number_within(word, u64::from(u32::MAX)) {
        Some(number) => Some(number as u32),
        None => Some(u32::MAX),
    }
}
