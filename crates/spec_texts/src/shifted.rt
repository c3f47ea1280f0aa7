//! Lines of formulas with X before the signals that are those of the next step.

use crate::beside::Taken;
use flat_lines::all_names;
use names_and_numbers::Name;
use std::alloc::{AllocError, Global};

/// The names of these signals.
pub(crate) fn shifted_names(alloc: Global, taken: &Taken) -> Result<Vec<Name>, AllocError> {
    let mut found = Vec::new(alloc);
    for (signal, name) in (0u32..64).zip(&all_names(alloc, &taken.spec)?) {
        if taken.is_shifted(signal) {
            found.push(name.clone()?)?;
        }
    }
    Ok(found)
}

pub(crate) fn shifted_lines(
    alloc: Global,
    lines: &[String],
    names: &[Name],
) -> Result<Vec<String>, AllocError> {
    let mut found = Vec::new(alloc);
    for line in lines {
        found.push(shifted_line(alloc, line, names)?)?;
    }
    Ok(found)
}

/// A line whose formula has X before each of these names. The word of its section may be called like a signal.
fn shifted_line(alloc: Global, line: &str, names: &[Name]) -> Result<String, AllocError> {
    let mut found = String::new(alloc);
    let mut word = String::new(alloc);
    let mut is_first = true;
    for sign in line.chars() {
        if matches!(sign, ' ' | '(' | ')' | '!') {
            push_word(&word, !is_first, names, &mut found)?;
            found.push(sign)?;
            word.clear();
            is_first = false;
        } else {
            word.push(sign)?;
        }
    }
    push_word(&word, !is_first, names, &mut found)?;
    Ok(found)
}

/// Pushes a word, behind X where it is one of these names and may be.
fn push_word(
    word: &str,
    may_be_name: bool,
    names: &[Name],
    out: &mut String,
) -> Result<(), AllocError> {
    let is_name = may_be_name && names.iter().any(|name| name.bytes() == word.as_bytes());
    if is_name {
        out.push_str("(X ")?;
    }
    out.push_str(word)?;
    if is_name {
        out.push(')')?;
    }
    Ok(())
}
