//! The pieces of a line and the numbers that they write.

ghost use Rattle.std.specs.Prelude.{◌≡◌, ◌<◌, ◌≤◌, IfSome, length, option_map};
ghost use Rattle.std.specs.List.{list_all, position_from};
ghost use Rattle.std.specs.Char.{is_ascii_digit};
ghost use Rattle.aiger_text.specs.Words.{cut_at, is_byte, leads_well, is_numeral, number_within};

use names_and_numbers::{Cursor, read_number};

/// What stands before the first separator and what stands behind it, where there is one.
pub fn cut_at(bytes: &[u8], separator: u8) -> Option<(&[u8], &[u8])>
    ensures { option_map (λ parts. (parts.0.now, parts.1.now)) result ≡ cut_at separator bytes.now }
{
    let place = place_of(bytes, separator)?;
    Some((&bytes[..place], &bytes[place + 1..]))
}

/// The place of the first separator.
fn place_of(bytes: &[u8], separator: u8) -> Option<usize>
    ensures place { result ≡ position_from (is_byte separator) 0 bytes.now }
    ensures within { IfSome result (λ place. place < length bytes.now) }
{
    bytes.iter().position(|byte| *byte == separator)
}

/// Whether it is one byte, or begins with another than `0`.
fn leads_well(word: &[u8]) -> bool
    ensures { result ≡ leads_well word.now }
{
    match word {
        [] => false,
        [_] => true,
        [first, ..] => *first != b'0',
    }
}

/// Whether a word is a number without leading zeros.
pub fn is_numeral(word: &[u8]) -> bool
    ensures { result ≡ is_numeral word.now }
{
    leads_well(word) && all_digits(word)
}

fn all_digits(word: &[u8]) -> bool
    ensures { result ≡ list_all is_ascii_digit word.now }
{
    word.iter().all(|byte| byte.is_ascii_digit())
}

/// The number that a word writes, where it is a number without leading zeros of at most `most`.
pub fn number_within(word: &[u8], most: u64) -> Option<u64>
    ensures number { result ≡ number_within most word.now }
    ensures within { IfSome result (λ n. n ≤ most) }
{
    if !is_numeral(word) {
        return None;
    }
    let mut cursor = Cursor::new(word);
    match read_number(&mut cursor, most) {
        Ok(number) => Some(number),
        Err(_) => None,
    }
}
