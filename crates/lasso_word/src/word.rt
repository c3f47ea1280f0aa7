ghost use Rattle.std.specs.Prelude.{◌≡◌, ◌≤◌, ◌<◌, ◌-◌, ◌^◌, ℕ, Some, None, Err, length, IfOk};
ghost use Rattle.std.specs.Bool.{MatchBool};
ghost use Rattle.lasso_word.specs.declared.word.WordFault.TheVariants.{BadLine, NoMemory};
ghost use Rattle.lasso_word.specs.WordText.{IsFirstBadWordLine, StatesWord, bad_line, continued, nothing_read, read_lines, word, word_of};

use crate::letters::letter_of;
use crate::lines::cut_at;
use letters_and_lassos::{Lasso, Letter};
use names_and_numbers::Name;
use std::alloc::{AllocError, AllocFailed, Global};
use std::marker::Model;

/// Why bytes are no text of a word.
#[derive(Clone, Copy)]
pub enum WordFault {
    /// The first line that is refused, counted from 1.
    BadLine(u64),
    /// There was no memory.
    NoMemory,
}

impl From<AllocError> for WordFault {
    ghost from_gives = { λ _ fault. fault ≡ NoMemory };

    fn from(_error: AllocError) -> WordFault {
        WordFault::NoMemory
    }
}

impl<T: Drop> From<AllocFailed<T>> for WordFault {
    ghost from_gives = { λ _ fault. fault ≡ NoMemory };

    fn from(_error: AllocFailed<T>) -> WordFault {
        WordFault::NoMemory
    }
}

/// The lasso that the bytes state, over the signals of these names in their order: the line `stem`, a line for each letter,
/// the line `ring`, and a line for each letter again. A letter's line has the names of its signals with one blank between
/// them, or `-` for none. Refused at the first line that isn't of this form, where a line is missing at the next one, and
/// at the 10,001st letter.
pub fn read_word(alloc: Global, bytes: &[u8], names: &[Name]) -> Result<Lasso, WordFault>
    requires { length names.now ≤ 64 }
    ensures word { IfOk result (λ lasso. StatesWord bytes.now names.now lasso) }
    ensures bad { (n : ℕ) → result ≡ Err (BadLine n) → IsFirstBadWordLine bytes.now names.now n }
{
    match bytes.strip_prefix(b"stem\n") {
        Some(rest) => read_lines(alloc, rest, names),
        None => Err(WordFault::BadLine(1)),
    }
}

/// What the lines behind the first one state.
fn read_lines(alloc: Global, bytes: &[u8], names: &[Name]) -> Result<Lasso, WordFault>
    requires named { length names.now ≤ 64 }
    requires short { length bytes.now < 2 ^ 64 - 2 }
    ensures ok { IfOk result (λ lasso. read_lines names.now bytes.now ≡ word lasso) }
    ensures bad { (n : ℕ) → result ≡ Err (BadLine n) → read_lines names.now bytes.now ≡ bad_line n }
{
    let mut so_far = SoFar::new(alloc);
    let mut rest = bytes;
    let mut line = 2u64;
    while let Some((text, behind)) = cut_at(rest, b'\n') {
        if !so_far.add_line(text, names)? {
            return Err(WordFault::BadLine(line));
        }
        rest = behind;
        line += 1;
    }
    if !rest.is_empty() {
        return Err(WordFault::BadLine(line));
    }
    so_far.into_word()?.ok_or(WordFault::BadLine(line))
}

/// The most letters of a word.
const MOST_LETTERS: usize = 10_000;

/// The letters that the lines stated, and how many of them are the stem's once the line `ring` has come.
#[derive(Drop)]
struct SoFar {
    letters: Vec<Letter>,
    ring_at: Option<usize>,
}

impl Model for SoFar {
    ghost use Rattle.lasso_word.specs.WordText.{SoFar as Read};

    ghost Value = { Read };

    ghost view = { λ s. record { letters = s.letters.items; ring_at = s.ring_at } };
}

impl SoFar {
    fn new(alloc: Global) -> SoFar
        ensures { result ≡ nothing_read }
    {
        SoFar {
            letters: Vec::new(alloc),
            ring_at: None,
        }
    }

    /// Takes one more line, if it may stand here.
    fn add_line(&mut self, line: &[u8], names: &[Name]) -> Result<bool, AllocError>
        requires { length names.now ≤ 64 }
        ensures { IfOk result (λ fits. MatchBool fits (continued names.now self.old line.now ≡ Some self.new) (continued names.now self.old line.now ≡ None)) }
    {
        if self.ring_at.is_none() && line == b"ring".as_slice() {
            self.ring_at = Some(self.letters.len());
            return Ok(true);
        }
        if self.letters.len() >= MOST_LETTERS {
            return Ok(false);
        }
        let Some(letter) = letter_of(line, names) else {
            return Ok(false);
        };
        self.letters.push(letter)?;
        Ok(true)
    }

    /// The word, where its ring has a letter.
    fn into_word(self) -> Result<Option<Lasso>, AllocError>
        ensures { IfOk result (λ found. found ≡ word_of self) }
    {
        let mut letters = self.letters;
        let Some(at) = self.ring_at.filter(|at| *at < letters.len()) else {
            return Ok(None);
        };
        let ring = letters.split_off(at)?;
        Ok(Lasso::new(letters, ring).ok())
    }
}
