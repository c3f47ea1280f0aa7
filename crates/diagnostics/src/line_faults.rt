use crate::excerpts::push_line;
use crate::line_rules::rule;
use crate::places::Place;
use crate::text_faults::Source;
use std::alloc::{AllocError, Global};
use std::fmt::Write;

/// What a file whose line is refused is for.
#[derive(Clone, Copy, Debug, PartialEq, Eq)]
pub enum LineOf {
    /// A document that `check` reads.
    Document,
    /// A word that `lasso` reads.
    Word,
    /// A circuit with an annotation, which `verify` reads.
    Circuit,
    /// The list of texts of `batch`.
    List,
}

/// The line of a file that is refused, from 1.
#[derive(Clone, Copy)]
pub struct LineFault {
    pub of: LineOf,
    pub line: u64,
}

/// Appends the message of a refused line: the file, the line's number, what is wanted there, and the line.
pub fn push_line_fault(
    alloc: Global,
    source: Source<'_>,
    fault: LineFault,
    out: &mut String,
) -> Result<(), AllocError> {
    let name = source.name;
    let number = fault.line;
    write!(out, "{name}:{number}: error: ")?;
    let Some(line) = line_at(source.bytes, number) else {
        return push_missing(source, fault, out);
    };
    if line.last() != Some(&b'\n') && source.is_whole {
        out.push_str("the line has no line end\n")?;
    } else {
        out.push_str(rule(source.bytes, fault, trimmed(line)))?;
        out.push('\n')?;
    }
    let shown = Place {
        line: number as usize,
        before: b"",
        behind: trimmed(line),
    };
    push_line(alloc, shown, out)?;
    Ok(())
}

/// Appends what is wanted behind the last line that was kept.
fn push_missing(source: Source<'_>, fault: LineFault, out: &mut String) -> Result<(), AllocError> {
    out.push_str(if !source.is_whole {
        "this line can't be shown, since the file is too long\n"
    } else {
        match fault.of {
            LineOf::Document => "the document ends before its line `end`\n",
            LineOf::Word => "a word is `stem`, letters, `ring`, and at least one letter\n",
            LineOf::Circuit => "the circuit ends before the annotation in its comment ends\n",
            LineOf::List => "the list ends here\n",
        }
    })
}

/// The line of that number, from 1, with its line end.
fn line_at(bytes: &[u8], number: u64) -> Option<&[u8]> {
    let skipped = number.checked_sub(1)?;
    bytes
        .split_inclusive(|byte| *byte == b'\n')
        .nth(skipped as usize)
}

fn trimmed(line: &[u8]) -> &[u8] {
    line.strip_suffix(b"\n").unwrap_or(line)
}
