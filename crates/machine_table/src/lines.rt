//! A text taken line by line.

use aiger_text::{cut_at, number_within};

/// The lines that are left, and the number of the first of them, from 1.
#[derive(Clone, Copy)]
pub(crate) struct Lines<'a> {
    pub(crate) rest: &'a [u8],
    pub(crate) number: u64,
}

impl<'a> Lines<'a> {
    pub(crate) fn of(bytes: &'a [u8]) -> Lines<'a> {
        Lines {
            rest: bytes,
            number: 1,
        }
    }

    /// The next line without its end; none where there is no whole line left.
    pub(crate) fn take(&mut self) -> Option<&'a [u8]> {
        let (line, rest) = cut_at(self.rest, b'\n')?;
        self.rest = rest;
        self.number = self.number.saturating_add(1);
        Some(line)
    }

    /// Takes the lines up to the line `c`, and that too. Where there is none it takes all.
    pub(crate) fn skip_to_comment(&mut self) {
        for _ in 0..self.rest.len() {
            match self.take() {
                Some(b"c") | None => break,
                Some(_) => {}
            }
        }
    }

    /// What a line has behind a word, where the next line begins with that.
    pub(crate) fn take_behind(&mut self, word: &[u8]) -> Option<&'a [u8]> {
        let (line, _) = cut_at(self.rest, b'\n')?;
        let behind = line.strip_prefix(word)?;
        self.take()?;
        Some(behind)
    }

    /// The number that the next line has behind a word.
    pub(crate) fn take_number(&mut self, word: &[u8]) -> Option<u64> {
        number_within(self.take_behind(word)?, u64::MAX)
    }

    /// So many lines with their ends.
    pub(crate) fn take_block(&mut self, count: u64) -> Option<&'a [u8]> {
        let whole = self.rest;
        for _ in 0..count {
            self.take()?;
        }
        let length = whole.len().saturating_sub(self.rest.len());
        whole.get(..length)
    }
}
