//! Standard input by its name among files.

use std::alloc::{AllocError, Global};

/// The name of standard input. A file of that name is `./-`.
const INPUT: &str = "-";

/// The file that the system opens it by.
const INPUT_FILE: &str = "/dev/stdin";

/// The file that is opened for a name.
pub fn file_of(name: &str) -> &str {
    if name == INPUT { INPUT_FILE } else { name }
}

/// Whether a word names standard input, alone or as an option's value behind `=`.
pub fn is_input(word: &str) -> bool {
    word == INPUT || option_before(word).is_some()
}

/// The option with its `=` of which standard input is the value.
fn option_before(word: &str) -> Option<&str> {
    let option = word.strip_suffix(INPUT)?;
    if option.starts_with("--") && option.ends_with('=') {
        Some(option)
    } else {
        None
    }
}

/// The words of a command with the file of standard input in place of its name.
pub fn with_input(alloc: Global, words: &[String]) -> Result<Vec<String>, AllocError> {
    let mut opened = Vec::with_capacity(alloc, words.len())?;
    for word in words {
        opened.push(opened_word(alloc, word.as_str())?)?;
    }
    Ok(opened)
}

fn opened_word(alloc: Global, word: &str) -> Result<String, AllocError> {
    match option_before(word) {
        Some(option) => format!(in alloc; "{option}{INPUT_FILE}"),
        None => String::from_str(alloc, file_of(word)),
    }
}
