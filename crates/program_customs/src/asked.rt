//! Words for the program itself.

use std::alloc::{AllocError, Global};

/// What is asked of the program itself.
#[derive(Clone, Copy, Debug, PartialEq, Eq)]
pub enum Asked {
    Help,
    Version,
}

impl Asked {
    fn by(word: &str) -> Option<Asked> {
        match word {
            "--help" | "-h" => Some(Asked::Help),
            "--version" | "-V" => Some(Asked::Version),
            _ => None,
        }
    }
}

/// What is asked of the program itself: by `help` as the first word behind the program's name, or by another such word before a first `--`.
pub fn asked_of(words: &[String]) -> Option<Asked> {
    if words.get(1).is_some_and(|word| word.as_str() == "help") {
        return Some(Asked::Help);
    }
    words
        .iter()
        .skip(1)
        .map(|word| word.as_str())
        .take_while(|word| *word != "--")
        .find_map(|word| Asked::by(word))
}

/// Takes `-o FILE`, which may have the forms `--output FILE` and `--output=FILE`, out of the words, and gives the file's name. It stands before
/// all words but the program's own ones. Where it has no name it is left there.
pub fn take_output(
    alloc: Global,
    words: &mut Vec<String>,
    own: &[&str],
) -> Result<Option<String>, AllocError> {
    let place = output_place(words, own);
    let Some(word) = words.get(place) else {
        return Ok(None);
    };
    if let Some(name) = word.strip_prefix("--output=") {
        if name.is_empty() {
            return Ok(None);
        }
        let name = String::from_str(alloc, name)?;
        words.remove(place);
        return Ok(Some(name));
    }
    if !is_output(word.as_str()) || !has_name(words, place) {
        return Ok(None);
    }
    words.remove(place);
    Ok(taken(words, place))
}

fn is_output(word: &str) -> bool {
    word == "-o" || word == "--output"
}

/// The first word behind the program's name, where it is one for the output's file that was left there: it names none, or is the second one.
pub fn left_output(words: &[String]) -> Option<&str> {
    let word = words.get(1)?.as_str();
    if is_output(word) || word.starts_with("--output=") {
        Some(word)
    } else {
        None
    }
}

/// The place behind the program's name and its own words.
fn output_place(words: &[String], own: &[&str]) -> usize {
    let behind = words
        .iter()
        .skip(1)
        .take_while(|word| own.iter().any(|other| *other == word.as_str()))
        .count();
    behind.saturating_add(1)
}

/// Whether a name stands behind the word at a place.
fn has_name(words: &[String], place: usize) -> bool {
    words
        .get(place.saturating_add(1))
        .is_some_and(|name| !name.is_empty())
}

/// Takes the word at a place out of the words, if there is one.
fn taken(words: &mut Vec<String>, place: usize) -> Option<String> {
    if place < words.len() {
        Some(words.remove(place))
    } else {
        None
    }
}
