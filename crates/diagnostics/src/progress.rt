use letters_and_lassos::Side;
use shown_text::push_shown;
use std::alloc::{AllocError, Global};
use std::fmt::Write;

/// The most characters of a line.
const MOST_COLUMNS: usize = 120;

/// What was counted at one size of one side.
#[derive(Clone, Copy)]
pub struct SizeTurns {
    pub side: Side,
    pub size: usize,
    /// The turns that were taken there so far.
    pub all: u64,
    /// Those of the last second.
    pub last: u64,
    /// The entries that were appended to its log, so far as they were counted.
    pub entries: u64,
}

/// The line on a search that runs so many seconds: for each size the turns in all, those of the last second, and, where there is a
/// limit, the entries of its log. At most 120 characters, with its end; the sizes at which nobody took a turn lately come last.
pub fn progress_line(
    alloc: Global,
    seconds: u64,
    sizes: &[SizeTurns],
    limit: Option<u64>,
) -> Result<String, AllocError> {
    let mut line = format!(in alloc; "{seconds} s")?;
    if let Some(limit) = limit {
        write!(line, ", limit {limit}")?;
    }
    line.push(':')?;
    for is_lately in [true, false] {
        for size in sizes.iter().filter(|size| (size.last > 0) == is_lately) {
            push_size(alloc, *size, limit, &mut line)?;
        }
    }
    line.push('\n')?;
    Ok(line)
}

/// Appends a size as far as it fits in the line.
fn push_size(
    alloc: Global,
    size: SizeTurns,
    limit: Option<u64>,
    line: &mut String,
) -> Result<(), AllocError> {
    let piece = piece(alloc, size, limit)?;
    if line.len().saturating_add(piece.len()) <= MOST_COLUMNS {
        line.push_str(&piece)?;
    }
    Ok(())
}

/// What is told of one size: ` system 2: turns 810 (+95), entries 812;`.
fn piece(alloc: Global, turns: SizeTurns, limit: Option<u64>) -> Result<String, AllocError> {
    let side = match turns.side {
        Side::System => "system",
        Side::Environment => "environment",
    };
    let SizeTurns {
        size,
        all,
        last,
        entries,
        ..
    } = turns;
    let mut piece = format!(in alloc; " {side} {size}: turns {all} (+{last})")?;
    if let Some(limit) = limit {
        // A worker whose entry came too late for a full log counts it too.
        let entries = entries.min(limit);
        write!(piece, ", entries {entries}")?;
    }
    piece.push(';')?;
    Ok(piece)
}

/// What `solve` does with a text for a while.
#[derive(Clone, Copy)]
pub enum Phase {
    /// Both sides play.
    Playing,
    /// Machines of small sizes are searched, since the games gave nothing to print.
    Searching,
}

/// The line for the moment at which a phase begins.
pub fn phase_line(alloc: Global, name: &str, phase: Phase) -> Result<String, AllocError> {
    let mut line = String::new(alloc);
    push_shown(alloc, name.as_bytes(), &mut line)?;
    line.push_str(match phase {
        Phase::Playing => ": the games begin\n",
        Phase::Searching =>
            ": the games give nothing to print; now searching small machines of both sides\n",
    })?;
    Ok(line)
}

/// The line on a batch that runs so many seconds: how many of its texts are answered, and on which lines of the list those stand that are
/// at work.
pub fn batch_line(
    alloc: Global,
    seconds: u64,
    answered: usize,
    texts: u64,
    at_work: &[usize],
) -> Result<String, AllocError> {
    let mut line = format!(in alloc; "{seconds} s: texts answered {answered} of {texts}")?;
    let first = if at_work.len() == 1 {
        "; at work on line"
    } else {
        "; at work on lines"
    };
    for (number, place) in at_work.iter().enumerate() {
        let before = if number == 0 { first } else { "," };
        write!(line, "{before} {place}")?;
    }
    line.push('\n')?;
    Ok(line)
}
