//! The names of a machine's signals as printable text, and letters and cubes of them.

use crate::cubes::Cube;
use crate::texts::Text;
use letters_and_lassos::Letter;
use names_and_numbers::Name;
use std::alloc::{AllocError, Global};
use std::fmt::Write;

/// The names of the signals of one sort; one without a name is called by the letter of its sort and its place.
pub(crate) fn names_of(
    alloc: Global,
    sort: char,
    names: &[Option<Name>],
) -> Result<Vec<Name>, AllocError> {
    let mut found = Vec::new(alloc);
    for (place, name) in names.iter().enumerate() {
        let name = match name {
            Some(name) => name.clone()?,
            None => Name::new(alloc, format!(in alloc; "{sort}{place}")?.as_bytes())?,
        };
        found.push(name)?;
    }
    Ok(found)
}

/// The names as printable text.
pub fn labels_of(alloc: Global, names: &[Name]) -> Result<Vec<String>, AllocError> {
    let mut labels = Vec::new(alloc);
    for name in names {
        labels.push(label_of(alloc, name)?)?;
    }
    Ok(labels)
}

/// A name as printable text: a byte that isn't a graphic character of ASCII stands as `%` and two digits.
fn label_of(alloc: Global, name: &Name) -> Result<String, AllocError> {
    let mut label = String::new(alloc);
    for byte in name.bytes() {
        if byte.is_ascii_graphic() {
            label.push(char::from(*byte))?;
        } else {
            write!(label, "%{byte:02x}")?;
        }
    }
    Ok(label)
}

/// Puts the words with another between two of them, or that last one where there are none.
pub fn put_words(words: &[String], joint: &str, none: &str, out: &mut Text) {
    for (place, word) in words.iter().enumerate() {
        if place > 0 {
            out.put(joint);
        }
        out.put(word);
    }
    if words.is_empty() {
        out.put(none);
    }
}

/// Puts the names of a letter's signals with a blank between them, or `-`, as a line of a word has them.
pub fn put_letter(letter: Letter, labels: &[String], out: &mut Text) {
    let mut is_first = true;
    for (signal, label) in (0u32..64).zip(labels) {
        if letter.has(signal) {
            if !is_first {
                out.put(" ");
            }
            out.put(label);
            is_first = false;
        }
    }
    if is_first {
        out.put("-");
    }
}

/// Puts the signals that a cube asks for, with `and` between them and `!` before one that is to be false, or `none`.
pub fn put_cube(cube: Cube, labels: &[String], and: &str, none: &str, out: &mut Text) {
    let mut is_first = true;
    for (signal, label) in (0u32..64).zip(labels) {
        let Some(is_wanted) = cube.asks(signal) else {
            continue;
        };
        if !is_first {
            out.put(and);
        }
        if !is_wanted {
            out.put("!");
        }
        out.put(label);
        is_first = false;
    }
    if is_first {
        out.put(none);
    }
}

/// Puts a digit for each signal, by what a cube asks of it, or `-`.
pub fn put_digits(cube: Cube, labels: &[String], out: &mut Text) {
    for (signal, _label) in (0u32..64).zip(labels) {
        out.put(match cube.asks(signal) {
            Some(true) => "1",
            Some(false) => "0",
            None => "-",
        });
    }
}

/// Puts a digit for each signal, by whether a letter has it.
pub fn put_levels(letter: Letter, labels: &[String], out: &mut Text) {
    for (signal, _label) in (0u32..64).zip(labels) {
        out.put(if letter.has(signal) { "1" } else { "0" });
    }
}

/// The labels with each of these characters replaced.
pub fn escaped(
    alloc: Global,
    labels: &[String],
    signs: &[(char, &str)],
) -> Result<Vec<String>, AllocError> {
    let mut found = Vec::new(alloc);
    for label in labels {
        found.push(escaped_text(alloc, label, signs)?)?;
    }
    Ok(found)
}

/// A text with each of these characters replaced.
pub fn escaped_text(
    alloc: Global,
    text: &str,
    signs: &[(char, &str)],
) -> Result<String, AllocError> {
    let mut found = String::new(alloc);
    for character in text.chars() {
        match signs.iter().find(|sign| sign.0 == character) {
            Some(sign) => found.push_str(sign.1)?,
            None => found.push(character)?,
        }
    }
    Ok(found)
}

/// Whether two of the labels, taken together, are the same.
pub fn has_twice(inputs: &[String], outputs: &[String]) -> bool {
    let mut all = inputs.iter().chain(outputs.iter()).enumerate();
    all.any(|(place, label)| {
        let mut before = inputs.iter().chain(outputs.iter()).take(place);
        before.any(|other| other.as_str() == label.as_str())
    })
}
