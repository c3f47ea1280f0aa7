//! The heads of logs.
ghost use Rattle.std.specs.Prelude.{◌≡◌, IfOk, option_map};
ghost use Rattle.document_text.specs.Header.{front};
ghost use Rattle.solved_text.specs.Logs.{head_in as head_of_line, head_of, log_of, numbers_for as numbers_of_line, numbers_of as numbers_of_text};

use crate::documents::SizeLog;
use crate::letters::{Letters, letters_in};
use aiger_text::{cut_at, number_within};
use document_text::behind;
use refutation_log::Entry;
use std::alloc::{AllocError, Global};

/// The numbers of a log's head.
#[derive(Clone, Copy)]
pub struct HeadNumbers {
    pub size: u32,
    pub vars: u32,
    pub base: u64,
    pub count: u64,
}

/// What a log's head states.
#[derive(Drop)]
pub struct Head {
    pub size: u32,
    pub letters: Letters,
    pub vars: u32,
    pub base: u64,
    pub count: u64,
}

impl HeadNumbers {
    fn with_letters(self, letters: Letters) -> Head
        ensures { result ≡ head_of self letters }
    {
        Head {
            size: self.size,
            letters,
            vars: self.vars,
            base: self.base,
            count: self.count,
        }
    }
}

impl Head {
    /// The log with this head in that line.
    pub(crate) fn log(self, entries: Vec<Entry>, line: u64) -> SizeLog
        ensures { result ≡ log_of self entries.items line }
    {
        SizeLog {
            size: self.size,
            letters: self.letters,
            vars: self.vars,
            base: self.base,
            entries,
            line,
        }
    }
}

/// What the head of this size's log states, and the bytes behind it, where it comes first.
pub(crate) fn next_head(
    alloc: Global,
    size: u32,
    bytes: &[u8],
) -> Result<Option<(Head, &[u8])>, AllocError>
    ensures { IfOk result (λ read. option_map (λ p. (p.0, p.1.now)) read ≡ front (head_of_line size) bytes.now) }
{
    let Some((line, rest)) = cut_at(bytes, b'\n') else {
        return Ok(None);
    };
    match head_in(alloc, size, line)? {
        Some(head) => Ok(Some((head, rest))),
        None => Ok(None),
    }
}

fn head_in(alloc: Global, size: u32, line: &[u8]) -> Result<Option<Head>, AllocError>
    ensures { IfOk result (λ head. head ≡ head_of_line size line.now) }
{
    let Some((numbers, word)) = numbers_for(size, line) else {
        return Ok(None);
    };
    match letters_in(alloc, word)? {
        Some(letters) => Ok(Some(numbers.with_letters(letters))),
        None => Ok(None),
    }
}

/// The numbers of the head of this size's log, and its letters' word.
fn numbers_for(size: u32, line: &[u8]) -> Option<(HeadNumbers, &[u8])>
    ensures { option_map (λ p. (p.0, p.1.now)) result ≡ numbers_of_line size line.now }
{
    let (numbers, word) = numbers_of(behind(line, b"log ")?)?;
    if numbers.size == size {
        Some((numbers, word))
    } else {
        None
    }
}

fn numbers_of(text: &[u8]) -> Option<(HeadNumbers, &[u8])>
    ensures { option_map (λ p. (p.0, p.1.now)) result ≡ numbers_of_text text.now }
{
    let (size, text) = cut_at(text, b' ')?;
    let (letters, text) = cut_at(text, b' ')?;
    let (vars, text) = cut_at(text, b' ')?;
    let (base, count) = cut_at(text, b' ')?;
    let size = number_within(size, u64::from(u32::MAX))?;
    let vars = number_within(vars, u64::from(u32::MAX))?;
    let base = number_within(base, u64::MAX)?;
    let count = number_within(count, u64::MAX)?;
    let numbers = HeadNumbers {
        size: size as u32,
        vars: vars as u32,
        base,
        count,
    };
    Some((numbers, letters))
}
