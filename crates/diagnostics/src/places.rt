ghost use Rattle.std.specs.Prelude.{◌≡◌, ◌+◌, take};
ghost use Rattle.program_replies.specs.Lines.{line_count as line_ends};

use program_replies::line_count;

/// A place of a text: the number of its line, from 1, and what the line has before and behind it.
#[derive(Clone, Copy)]
pub struct Place<'a> {
    pub line: usize,
    pub before: &'a [u8],
    pub behind: &'a [u8],
}

impl<'a> Place<'a> {
    /// The place of a byte, or the text's end.
    pub fn new(text: &'a [u8], at: usize) -> Place<'a>
        ensures line { result.line ≡ line_ends (take at text.now) + 1 }
    {
        let (before, behind) = text.split_at(at.min(text.len()));
        Place {
            line: line_number(before),
            before: last_line(before),
            behind: first_line(behind),
        }
    }

    /// The column, from 1: a character of UTF-8 is one, and so is a byte that is none.
    pub fn column(&self) -> usize {
        char_count(self.before).saturating_add(1)
    }
}

/// The number of the line behind these bytes, from 1.
fn line_number(before: &[u8]) -> usize
    ensures { result ≡ line_ends before.now + 1 }
{
    line_count(before) + 1
}

/// What stands behind the last line end.
fn last_line(bytes: &[u8]) -> &[u8] {
    bytes.rsplit(|byte| *byte == b'\n').next().unwrap_or(b"")
}

/// What stands before the first line end.
fn first_line(bytes: &[u8]) -> &[u8] {
    let line = bytes.split(|byte| *byte == b'\n').next().unwrap_or(b"");
    line.strip_suffix(b"\r").unwrap_or(line)
}

/// How many characters the bytes are.
pub(crate) fn char_count(bytes: &[u8]) -> usize {
    let mut count = 0usize;
    for chunk in bytes.utf8_chunks() {
        let valid = chunk.valid().chars().count();
        count = count
            .saturating_add(valid)
            .saturating_add(chunk.invalid().len());
    }
    count
}
