//! Names, words and lines of other makers as a terminal may be given them, and how much a run may say. What a terminal would obey is
//! masked, and what is long loses its middle.
//!
//! `push_shown` appends a name or a word, `push_masked` a line of which the caller shows a part, and `first_messages` keeps the first 64 KB of
//! a run's messages. They promise safety.
#![tactic(auto)]

use std::alloc::{AllocError, Global};

/// The most columns that are shown of a name, a word or a line.
pub const MOST_COLUMNS: usize = 120;

/// What stands where something is left out.
pub const CUT: &str = "..";

/// The most bytes that a run says.
const MOST_BYTES: usize = 65_536;

/// The last line where a run would say more.
const LEFT_OUT: &str = "more messages are left out: a run shows 64 KB of them\n";

/// Appends a name or a word as it may be shown, at most 120 columns of it: where it is longer, its middle is left out.
pub fn push_shown(alloc: Global, bytes: &[u8], out: &mut String) -> Result<(), AllocError> {
    let masked = masked(alloc, bytes)?;
    let columns = masked.chars().count();
    if columns <= MOST_COLUMNS {
        return push_columns(&masked, 0, columns, out);
    }
    let half = (MOST_COLUMNS - CUT.len()) / 2;
    push_columns(&masked, 0, half, out)?;
    out.push_str(CUT)?;
    push_columns(&masked, columns - half, half, out)
}

/// Appends so many characters from a place on, without tabs.
fn push_columns(text: &str, from: usize, count: usize, out: &mut String) -> Result<(), AllocError> {
    for character in text.chars().skip(from).take(count) {
        out.push(if character == '\t' { '?' } else { character })?;
    }
    Ok(())
}

/// The bytes as they may be shown.
pub fn masked(alloc: Global, bytes: &[u8]) -> Result<String, AllocError> {
    let mut out = String::new(alloc);
    push_masked(bytes, &mut out)?;
    Ok(out)
}

/// Appends bytes as they may be shown, a character for each one of theirs: `?` for a byte that is none, and for what a terminal would obey or
/// not show. A tab stays.
pub fn push_masked(bytes: &[u8], out: &mut String) -> Result<(), AllocError> {
    for chunk in bytes.utf8_chunks() {
        for character in chunk.valid().chars() {
            out.push(if is_plain(character) { character } else { '?' })?;
        }
        for _ in chunk.invalid() {
            out.push('?')?;
        }
    }
    Ok(())
}

/// Whether a terminal shows a character where it stands: no control character but a tab, none that changes the direction of writing or
/// ends a line, and none without width.
fn is_plain(character: char) -> bool {
    if character.is_control() {
        return character == '\t';
    }
    !matches!(
        character,
        '\u{61c}'
            | '\u{180e}'
            | '\u{200b}'..='\u{200f}'
            | '\u{2028}'..='\u{202e}'
            | '\u{2060}'..='\u{206f}'
            | '\u{feff}'
            | '\u{fff9}'..='\u{fffb}'
            | '\u{e0000}'..='\u{e007f}'
    )
}

/// The lines of a run's messages as far as they have 64 KB, and that there are more.
pub fn first_messages(alloc: Global, text: &str) -> Result<String, AllocError> {
    let mut out = String::new(alloc);
    for line in text.split_inclusive('\n') {
        let room = MOST_BYTES - LEFT_OUT.len();
        if out.len().saturating_add(line.len()) > room {
            out.push_str(LEFT_OUT)?;
            return Ok(out);
        }
        out.push_str(line)?;
    }
    Ok(out)
}
