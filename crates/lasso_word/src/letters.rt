//! One letter, from the names of its signals.

ghost use Rattle.std.specs.Prelude.{◌≡◌, ◌≤◌, ◌<◌, ◌^◌, length, position, IfSome};
ghost use Rattle.std.specs.Str.{bytes_eq};
ghost use Rattle.letters_and_lassos.specs.Word.{no_signals};
ghost use Rattle.lasso_word.specs.Lines.{parts_at};
ghost use Rattle.lasso_word.specs.WordText.{letter_of, with_all_named, with_named, with_signal};

use crate::lines::cut_at;
use letters_and_lassos::Letter;
use names_and_numbers::Name;

/// The letter that a line states, if it states one.
pub(crate) fn letter_of(line: &[u8], names: &[Name]) -> Option<Letter>
    requires { length names.now ≤ 64 }
    ensures { result ≡ letter_of names.now line.now }
{
    if line == b"-".as_slice() {
        return Some(Letter(0));
    }
    all_named(line, names)
}

/// The letter with the signals of the names in a line.
fn all_named(line: &[u8], names: &[Name]) -> Option<Letter>
    requires { length names.now ≤ 64 }
    ensures { result ≡ with_all_named names.now (parts_at 32 line.now) no_signals }
{
    let mut letter = Letter(0);
    let mut rest = line;
    while let Some((name, behind)) = cut_at(rest, b' ') {
        letter = with_named(letter, name, names)?;
        rest = behind;
    }
    with_named(letter, rest, names)
}

/// The letter with the signal of that name, which it must not have yet.
fn with_named(letter: Letter, name: &[u8], names: &[Name]) -> Option<Letter>
    requires { length names.now ≤ 64 }
    ensures { result ≡ with_named names.now letter name.now }
{
    let signal = signal_of(name, names)?;
    if letter.has(signal) {
        return None;
    }
    Some(with_signal(letter, signal))
}

/// The first signal of that name.
fn signal_of(name: &[u8], names: &[Name]) -> Option<u32>
    requires { length names.now ≤ 64 }
    ensures place { result ≡ position (bytes_eq name.now) names.now }
    ensures few { IfSome result (λ signal. signal < 64) }
{
    let place = place_of(name, names)?;
    Some(place as u32)
}

fn place_of(name: &[u8], names: &[Name]) -> Option<usize>
    ensures place { result ≡ position (bytes_eq name.now) names.now }
    ensures within { IfSome result (λ place. place < length names.now) }
{
    names.iter().position(|other| name == other.bytes())
}

fn with_signal(letter: Letter, signal: u32) -> Letter
    requires { signal < 64 }
    ensures { result ≡ with_signal letter signal }
{
    Letter(letter.0 | bit(signal))
}

fn bit(signal: u32) -> u64
    requires { signal < 64 }
    ensures { result ≡ 2 ^ signal }
{
    1 << signal
}
