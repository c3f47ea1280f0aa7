//! The documents within what `core` and `batch` write.

use crate::choices::{Choice, Owner};
use crate::faults::ShowFault;
use crate::lines::Lines;

/// A document within a longer output, and the number of lines before it.
#[derive(Clone, Copy)]
pub(crate) struct Found<'a> {
    pub(crate) bytes: &'a [u8],
    pub(crate) lines_before: u64,
}

pub(crate) fn is_output(bytes: &[u8]) -> bool {
    bytes.starts_with(b"core ") || bytes.starts_with(b"text ") || bytes.starts_with(b"end batch\n")
}

/// The first document that is chosen.
pub(crate) fn find<'a>(bytes: &'a [u8], choice: Choice<'_>) -> Result<Found<'a>, ShowFault> {
    let mut lines = Lines::of(bytes);
    for _ in 0..bytes.len() {
        if lines.rest.starts_with(b"end core\n") || lines.rest.starts_with(b"end batch\n") {
            return Err(ShowFault::NoSuchDocument);
        }
        let before = lines.number;
        let Some(owner) = next_owner(&mut lines) else {
            return Err(ShowFault::BadDocument(before));
        };
        let before = lines.number;
        let Some(found) = next_document(&mut lines) else {
            return Err(ShowFault::BadDocument(before));
        };
        if choice.takes(owner, found.bytes) {
            return Ok(found);
        }
    }
    Err(ShowFault::NoSuchDocument)
}

/// Whose document comes next.
fn next_owner<'a>(lines: &mut Lines<'a>) -> Option<Owner<'a>> {
    if let Some(name) = lines.take_behind(b"text ") {
        lines.take_number(b"status ")?;
        return Some(Owner::Text(name));
    }
    if let Some(number) = lines.take_number(b"without ") {
        return Some(Owner::Without(number));
    }
    lines.take_behind(b"core ")?;
    skip_guarantees(lines);
    Some(Owner::Core)
}

fn skip_guarantees(lines: &mut Lines<'_>) {
    for _ in 0..lines.rest.len() {
        if lines.take_behind(b"guarantee ").is_none() {
            break;
        }
    }
}

/// The lines of a document, whose number stands before them.
fn next_document<'a>(lines: &mut Lines<'a>) -> Option<Found<'a>> {
    let count = match lines.take_number(b"document ") {
        Some(count) => count,
        None => lines.take_number(b"lines ")?,
    };
    let lines_before = lines.number.saturating_sub(1);
    let bytes = lines.take_block(count)?;
    Some(Found {
        bytes,
        lines_before,
    })
}
