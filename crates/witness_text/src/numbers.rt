//! Lines of numbers.
ghost use Rattle.std.specs.Prelude.{◌≡◌, IfOk, option_map};
ghost use Rattle.witness_text.specs.Forms.{numbers_behind as numbers_behind_words, numbers_in as numbers_in_text};

use aiger_text::cut_at;
use document_text::{behind, in_range};
use std::alloc::{AllocError, Global};

/// The numbers of 32 bits that a line has behind these words, with one space between them.
pub(crate) fn numbers_behind(
    alloc: Global,
    words: &[u8],
    line: &[u8],
) -> Result<Option<Vec<u32>>, AllocError>
    ensures { IfOk result (λ numbers. option_map (λ ns. ns.items) numbers ≡ numbers_behind_words words.now line.now) }
{
    match behind(line, words) {
        Some(text) => numbers_in(alloc, text),
        None => Ok(None),
    }
}

/// The numbers of a text with one space between them.
fn numbers_in(alloc: Global, text: &[u8]) -> Result<Option<Vec<u32>>, AllocError>
    ensures { IfOk result (λ numbers. option_map (λ ns. ns.items) numbers ≡ numbers_in_text text.now) }
{
    let mut numbers: Vec<u32> = Vec::new(alloc);
    let mut rest = text;
    while let Some((word, behind)) = cut_at(rest, b' ') {
        let Some(number) = in_range(word, 0, u32::MAX) else {
            return Ok(None);
        };
        numbers.push(number)?;
        rest = behind;
    }
    let Some(number) = in_range(rest, 0, u32::MAX) else {
        return Ok(None);
    };
    numbers.push(number)?;
    Ok(Some(numbers))
}
