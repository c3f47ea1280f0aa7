//! The letters over which a log's base clauses are.
ghost use Rattle.std.specs.Prelude.{◌≡◌, ◌<◌, IfOk, option_map};
ghost use Rattle.solved_text.specs.Logs.{letters_in as letters_of_word, numbers_in as numbers_of_word};

use aiger_text::cut_at;
use document_text::in_range;
use std::alloc::{AllocError, Global};
use std::marker::Model;

/// The greatest number of a letter: a side reads at most 16 signals.
const MOST_LETTER: u32 = 65_535;

/// Letters by their numbers. Seen by contracts as the list of the numbers.
#[derive(Debug, Drop)]
pub struct LetterList {
    numbers: Vec<u32>,
}

impl Model for LetterList {
    ghost use Rattle.std.specs.Prelude.{ℕ, List};

    ghost Value = { List ℕ };

    ghost view = { λ l. l.numbers.items };
}

impl LetterList {
    /// The letters with these numbers.
    pub fn new(numbers: Vec<u32>) -> LetterList
        ensures { result ≡ numbers.items }
    {
        LetterList { numbers }
    }

    pub fn numbers(&self) -> &[u32]
        ensures { result.now ≡ self.now }
    {
        &self.numbers
    }
}

/// The letters over which a log's base clauses are.
#[derive(Debug, Drop)]
pub enum Letters {
    /// All that its side reads.
    All,
    /// These, rising.
    Few(LetterList),
}

/// The letters that a word of a head names.
pub(crate) fn letters_in(alloc: Global, word: &[u8]) -> Result<Option<Letters>, AllocError>
    ensures { IfOk result (λ letters. letters ≡ letters_of_word word.now) }
{
    if word == b"all".as_slice() {
        return Ok(Some(Letters::All));
    }
    match numbers_in(alloc, word)? {
        Some(numbers) => Ok(Some(Letters::Few(LetterList::new(numbers)))),
        None => Ok(None),
    }
}

/// The numbers of letters that stand between commas, where each is above the one before it.
fn numbers_in(alloc: Global, word: &[u8]) -> Result<Option<Vec<u32>>, AllocError>
    ensures { IfOk result (λ numbers. option_map (λ ns. ns.items) numbers ≡ numbers_of_word word.now) }
{
    let mut numbers: Vec<u32> = Vec::new(alloc);
    let mut least = 0;
    let mut rest = word;
    while let Some((part, behind)) = cut_at(rest, b',') {
        let Some(number) = in_range(part, least, MOST_LETTER) else {
            return Ok(None);
        };
        numbers.push(number)?;
        least = number + 1;
        rest = behind;
    }
    let Some(number) = in_range(rest, least, MOST_LETTER) else {
        return Ok(None);
    };
    numbers.push(number)?;
    Ok(Some(numbers))
}
