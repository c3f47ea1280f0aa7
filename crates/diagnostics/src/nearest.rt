use std::alloc::{AllocError, Global};
use strsim::osa_distance;

/// The text nearest to a word of those that were compared, if one is near: with fewer edits than half of the word's length, or the same
/// but for capitals.
#[derive(Drop)]
pub(crate) struct Nearest<'w, 'a> {
    word: &'w str,
    pub(crate) found: Option<&'a str>,
    least: usize,
}

impl<'w, 'a> Nearest<'w, 'a> {
    pub(crate) fn new(word: &'w str) -> Nearest<'w, 'a> {
        Nearest {
            word,
            found: None,
            least: word.len().saturating_add(1) / 2,
        }
    }

    /// Compares a text. One of another length by more than the edits that are allowed isn't looked at.
    pub(crate) fn compare(&mut self, alloc: Global, text: &'a str) -> Result<(), AllocError> {
        let is_far = text.len().abs_diff(self.word.len()) >= self.least;
        if self.word.eq_ignore_ascii_case(text) {
            self.least = 0;
            self.found = Some(text);
        } else if !is_far && self.word.len() <= MOST_COMPARED {
            let distance = osa_distance(alloc, self.word, text)?;
            if distance < self.least {
                self.least = distance;
                self.found = Some(text);
            }
        }
        Ok(())
    }
}

/// The longest word that is compared: nobody mistypes a longer one, and the table of a comparison grows with both lengths.
const MOST_COMPARED: usize = 64;
