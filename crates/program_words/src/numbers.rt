//! Numbers among the words.
ghost use Rattle.std.specs.Prelude.{◌≡◌, ◌≤◌, true, IfSome};
ghost use Rattle.std.specs.Char.{is_ascii_digit};
ghost use Rattle.std.specs.List.{list_all};
ghost use Rattle.program_words.specs.Numbers.{is_numeral, number_in, value_within};

use names_and_numbers::{Cursor, read_number};

/// The number that a word is, if it is one from the least to the most.
pub(crate) fn number_in(text: &str, least: u32, most: u32) -> Option<u32>
    ensures number { result ≡ number_in least most text.now }
    ensures within { IfSome result (λ n. (least ≤ n) × (n ≤ most)) }
{
    let bytes = text.as_bytes();
    if !is_numeral(bytes) {
        return None;
    }
    let value = value_within(bytes, u64::from(most))? as u32;
    if least <= value { Some(value) } else { None }
}

/// The value of digits, if it is at most `most`.
fn value_within(digits: &[u8], most: u64) -> Option<u64>
    requires { is_numeral digits.now ≡ true }
    ensures value { result ≡ value_within most digits.now }
    ensures within { IfSome result (λ n. n ≤ most) }
{
    read_number(&mut Cursor::new(digits), most).ok()
}

fn is_numeral(text: &[u8]) -> bool
    ensures { result ≡ is_numeral text.now }
{
    if text.is_empty() {
        return false;
    }
    if text.len() != 1 && text[0] == b'0' {
        return false;
    }
    all_digits(text)
}

fn all_digits(text: &[u8]) -> bool
    ensures { result ≡ list_all is_ascii_digit text.now }
{
    text.iter().all(|byte| byte.is_ascii_digit())
}
