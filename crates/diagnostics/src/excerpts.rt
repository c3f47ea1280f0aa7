use crate::places::{Place, char_count};
use shown_text::{CUT, MOST_COLUMNS, masked, push_masked};
use std::alloc::{AllocError, Global};
use std::fmt::Write;

/// What is shown of a line is this wide where a part of it is left out on both sides.
const WINDOW: usize = MOST_COLUMNS - 4;

/// Appends the line of a place behind its number, and below it a mark at the place.
pub(crate) fn push_marked(
    alloc: Global,
    place: Place<'_>,
    out: &mut String,
) -> Result<(), AllocError> {
    let from = push_line(alloc, place, out)?;
    out.push_str("      | ")?;
    if from > 0 {
        out.push_str("  ")?;
    }
    let before = masked(alloc, place.before)?;
    for character in before.chars().skip(from) {
        out.push(if character == '\t' { '\t' } else { ' ' })?;
    }
    out.push_str("^\n")
}

/// Appends the line of a place behind its number, at most 120 columns around the place. It tells how many columns are left out in front.
pub(crate) fn push_line(
    alloc: Global,
    place: Place<'_>,
    out: &mut String,
) -> Result<usize, AllocError> {
    let mut line = masked(alloc, place.before)?;
    push_masked(place.behind, &mut line)?;
    let number = place.line;
    write!(out, "{number:>5} | ")?;
    let from = first_column(char_count(place.before), line.chars().count());
    push_window(&line, from, out)?;
    out.push('\n')?;
    Ok(from)
}

/// The first column that is shown, from 0, of a line of so many that has this one.
fn first_column(column: usize, columns: usize) -> usize {
    if columns <= MOST_COLUMNS || column < WINDOW {
        0
    } else {
        column - WINDOW / 2
    }
}

/// Appends what is shown of a line from that column on.
fn push_window(line: &str, from: usize, out: &mut String) -> Result<(), AllocError> {
    if from > 0 {
        out.push_str(CUT)?;
    }
    let rest = line.chars().count().saturating_sub(from);
    let most = if rest <= MOST_COLUMNS { rest } else { WINDOW };
    for character in line.chars().skip(from).take(most) {
        out.push(character)?;
    }
    if most < rest {
        out.push_str(CUT)?;
    }
    Ok(())
}
