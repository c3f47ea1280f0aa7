//! The first line at which a circuit's counts and names aren't those of a text.
ghost use Rattle.std.specs.Prelude.{◌≡◌, ◌+◌, ◌<◌, ◌^◌, length, option_map, codes};
ghost use Rattle.std.specs.Option.{option_copied};
ghost use Rattle.aiger_text.specs.CircuitFile.{lines_of};
ghost use Rattle.circuit_names.specs.Lines.{behind_mark as text_behind_mark, count_words as words_of_counts, counts_line as line_of_counts, earliest as earliest_of, faulty_line as line_of_faulty, foreign_from as foreign_names, foreign_line as line_of_foreign, foreign_name as line_of_name, is_foreign as is_foreign_line, is_other as is_other_name, names_other as other_named, stated_line as line_of_stated, writes as writes_number};
ghost use Rattle.circuit_names.specs.Names.{names_of};

use crate::names::TextNames;
use aiger_text::{CircuitFile, cut_at, number_within};
use letters_and_lassos::Side;
use names_and_numbers::Name;

/// The smaller one of two lines, where they are there.
pub fn earliest(a: Option<u64>, b: Option<u64>) -> Option<u64>
    ensures { result ≡ earliest_of a b }
{
    match (a, b) {
        (None, other) => other,
        (Some(n), None) => Some(n),
        (Some(n), Some(m)) => Some(n.min(m)),
    }
}

// == a circuit without fault ==

/// The line at which a circuit without fault, of this side, fails for a text: line 1 where it has another number of inputs or outputs,
/// else the first name that is another than the text's. Names may be missing.
pub fn stated_line(names: TextNames<'_>, side: Side, file: &CircuitFile) -> Option<u64>
    ensures { result ≡ line_of_stated (names_of names.entry) side file.now }
{
    let circuit = &file.circuit;
    let (read, written) = (names.read_names(side), names.written_names(side));
    let inputs = circuit.input_names.as_slice();
    let outputs = circuit.output_names.as_slice();
    if inputs.len() == read.len() && outputs.len() == written.len() {
        earliest(
            foreign_from(0, inputs, read, &file.name_lines),
            foreign_from(inputs.len(), outputs, written, &file.name_lines),
        )
    } else {
        Some(1)
    }
}

/// The first line of names that aren't the wanted ones; the first of their lines stands at this place.
fn foreign_from(place: usize, names: &[Option<Name>], wanted: &[Name], lines: &[u64]) -> Option<u64>
    requires { place + length names.now < 2 ^ 64 }
    ensures { result ≡ foreign_names place names.now wanted.now lines.now }
{
    match (names, wanted) {
        ([name, names @ ..], [other, wanted @ ..]) => {
            let line = lines.get(place).copied().unwrap_or(0);
            let first = foreign_name(name, other, line);
            earliest(first, foreign_from(place + 1, names, wanted, lines))
        }
        ([], _) => None,
        ([_, ..], []) => None,
    }
}

/// The line of a name that isn't the wanted one.
fn foreign_name(name: &Option<Name>, wanted: &Name, line: u64) -> Option<u64>
    ensures { result ≡ line_of_name name.now wanted.now line }
{
    match name {
        Some(name) => {
            if name.bytes() == wanted.bytes() {
                None
            } else {
                Some(line)
            }
        }
        None => None,
    }
}

// == a circuit with a fault ==

/// The line at which the bytes of a system's circuit that has a fault fail for a text, apart from the fault: line 1 where the header
/// doesn't count the text's inputs and outputs, else the first name that is another than the text's.
pub fn faulty_line(names: TextNames<'_>, bytes: &[u8]) -> Option<u64>
    ensures { result ≡ line_of_faulty (names_of names.entry) bytes.now }
{
    let (line, rest) = cut_at(bytes, b'\n')?;
    earliest(counts_line(names, line), foreign_line(names, rest))
}

/// Line 1 where it doesn't count the text's inputs and outputs.
fn counts_line(names: TextNames<'_>, line: &[u8]) -> Option<u64>
    ensures { result ≡ line_of_counts (names_of names.entry) line.now }
{
    let Some((inputs, outputs)) = count_words(line) else {
        return Some(1);
    };
    if writes(names.inputs.len() as u64, inputs) && writes(names.outputs.len() as u64, outputs) {
        None
    } else {
        Some(1)
    }
}

/// The words of a header for the numbers of inputs and of outputs.
fn count_words(line: &[u8]) -> Option<(&[u8], &[u8])>
    ensures { option_map (λ p. (p.0.now, p.1.now)) result ≡ words_of_counts line.now }
{
    let text = behind_mark(line)?;
    let (_, text) = cut_at(text, b' ')?;
    let (inputs, text) = cut_at(text, b' ')?;
    let (_, text) = cut_at(text, b' ')?;
    let (outputs, _) = cut_at(text, b' ')?;
    Some((inputs, outputs))
}

fn behind_mark(line: &[u8]) -> Option<&[u8]>
    ensures { option_copied result ≡ text_behind_mark line.now }
{
    if line.starts_with(b"aag ") {
        Some(&line[4..])
    } else {
        None
    }
}

/// Whether a word writes this number.
fn writes(n: u64, word: &[u8]) -> bool
    ensures { result ≡ writes_number n word.now }
{
    match number_within(word, n) {
        Some(m) => m == n,
        None => false,
    }
}

/// The first line before the line `c` that names an input or an output, and not as the text does. The bytes begin at line 2.
fn foreign_line(names: TextNames<'_>, bytes: &[u8]) -> Option<u64>
    ensures { result ≡ line_of_foreign (names_of names.entry) 2 (lines_of bytes.now) }
{
    let mut n = 2;
    let mut rest = bytes;
    while let Some((line, behind)) = cut_at(rest, b'\n') {
        if line == b"c".as_slice() {
            return None;
        }
        if is_foreign(names, line) {
            return Some(n);
        }
        n += 1;
        rest = behind;
    }
    None
}

fn is_foreign(names: TextNames<'_>, line: &[u8]) -> bool
    ensures { result ≡ is_foreign_line (names_of names.entry) line.now }
{
    match line {
        [] => false,
        [letter, text @ ..] => {
            if *letter == b'i' {
                names_other(names.inputs, text)
            } else if *letter == b'o' {
                names_other(names.outputs, text)
            } else {
                false
            }
        }
    }
}

fn names_other(names: &[Name], text: &[u8]) -> bool
    ensures { result ≡ other_named names.now text.now }
{
    match cut_at(text, b' ') {
        Some((place, name)) => is_other(names, number_within(place, names.len() as u64), name),
        None => false,
    }
}

fn is_other(names: &[Name], place: Option<u64>, name: &[u8]) -> bool
    ensures { result ≡ is_other_name names.now place name.now }
{
    let Some(place) = place else {
        return false;
    };
    place < names.len() as u64 && name != names[place as usize].bytes()
}
