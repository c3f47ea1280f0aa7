ghost use Rattle.std.specs.Prelude.{◌≡◌, ◌≢◌, ◌+◌, ◌<◌, ◌≤◌, ◌↔◌, [], ◌++◌, length, decimal, take_while, IfOk, OnOk, OnErr, IsErrOf, IsTrue};
ghost use Rattle.std.specs.Option.{SomeIff};
ghost use Rattle.std.specs.Char.{is_ascii_digit};
ghost use Rattle.std.specs.Str.{all_ascii_digits};
ghost use Rattle.names_and_numbers.specs.Reading.{moved};
ghost use Rattle.names_and_numbers.specs.Numerals.{digit_run, decimal_value};

use crate::Cursor;
use itoa::Buffer;
use std::alloc::AllocError;

/// Why no number was read.
#[derive(Clone, Copy, Debug, PartialEq, Eq)]
pub enum NumberFault {
    /// The next byte is no digit.
    NoDigits = 1,
    /// The number is too large.
    Range = 2,
}

/// Reads the longest run of decimal digits, leading zeros allowed, as a number of at most `most`.
/// After a refusal the cursor is as before.
pub fn read_number(cursor: &mut Cursor<'_>, most: u64) -> Result<u64, NumberFault>
    ensures value { IfOk result (λ n. n ≡ decimal_value (digit_run cursor.old.left)) }
    ensures within { IfOk result (λ n. n ≤ most) }
    ensures after { OnOk result (cursor.new ≡ moved cursor.old (length (digit_run cursor.old.left))) }

    ensures no_digits { IsErrOf result NumberFault.NoDigits ↔ (digit_run cursor.old.left ≡ []) }
    ensures range { IsErrOf result NumberFault.Range ↔ (most < decimal_value (digit_run cursor.old.left)) }
    ensures err { OnErr result (cursor.new ≡ cursor.old) }
{
    let run = digits_at_front(cursor.left());
    if run.is_empty() {
        return Err(NumberFault::NoDigits);
    }
    let value = value_within(run, most).ok_or(NumberFault::Range)?;
    cursor.skip(run.len());
    Ok(value)
}

/// Appends the decimal digits of `value`, without leading zeros.
pub fn push_number(out: &mut Vec<u8>, value: u64) -> Result<(), AllocError>
    ensures ok { OnOk result (out.new.items ≡ out.old.items ++ decimal value) }
    ensures err { OnErr result (out.new.items ≡ out.old.items) }
{
    let mut buffer = Buffer::new();
    out.extend_from_slice(buffer.format(value).as_bytes())
}

/// The longest run of digits that the bytes begin with.
fn digits_at_front(bytes: &[u8]) -> &[u8]
    ensures run { result.now ≡ digit_run bytes.now }
{
    for (count, byte) in bytes.iter().enumerate() {
        if !byte.is_ascii_digit() {
            return &bytes[..count];
        }
    }
    bytes
}

/// The value of digits, if it is at most `most`.
fn value_within(digits: &[u8], most: u64) -> Option<u64>
    requires { IsTrue (all_ascii_digits digits.now) }
    ensures { SomeIff result (decimal_value digits.now ≤ most) (decimal_value digits.now) }
{
    let mut value = 0u64;
    for byte in digits {
        let next = u128::from(value) * 10 + u128::from(byte - b'0');
        if next > u128::from(most) {
            return None;
        }
        value = next as u64;
    }
    Some(value)
}
