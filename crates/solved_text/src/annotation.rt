//! Where a document's annotation stands, and what may stand behind it.
ghost use Rattle.std.specs.Prelude.{◌≡◌, ◌+◌, ◌<◌, ◌^◌, codes, length, option_map};
ghost use Rattle.document_text.specs.Header.{behind as behind_front, front};
ghost use Rattle.solved_text.specs.Annotation.{annotation_at as annotation_in_line, bad_at_end as bad_with_end, bad_behind_end as bad_behind_pieces, bad_of_annotation as bad_with_annotation, has_head as begins_annotation, pieces_of};
ghost use Rattle.document_text.specs.Logs.{bad_behind as bad_of_rest};
ghost use Rattle.solved_text.specs.Shown.{shown_annotation};

use aiger_text::cut_at;
use document_text::behind;

/// Where the head of a document's annotation stands.
#[derive(Clone, Copy, Debug)]
pub struct AnnotationPlace {
    /// Its line, from 1.
    pub line: u64,
    /// The place of its first byte among the document's.
    pub at: usize,
}

/// An annotation's lines, with the number of the first.
#[derive(Clone, Copy)]
pub struct AnnotationText<'a> {
    pub line: u64,
    pub text: &'a [u8],
}

/// The annotation in line n, where its head stands there.
pub(crate) fn annotation_at(n: u64, text: &[u8]) -> Option<AnnotationText<'_>>
    ensures { shown_annotation result ≡ annotation_in_line n text.now }
{
    if has_head(text) {
        Some(AnnotationText { line: n, text })
    } else {
        None
    }
}

/// The first bad line from line n on, where the head of an annotation has to stand.
pub(crate) fn bad_of_annotation(n: u64, text: &[u8]) -> Option<u64>
    requires { n + length text.now + 1 < 2 ^ 64 }
    ensures { result ≡ bad_with_annotation n text.now }
{
    if has_head(text) {
        bad_behind_end(n, text)
    } else {
        Some(n)
    }
}

/// The first bad line from line n on, which has to be the line `end`, with nothing behind it.
pub(crate) fn bad_at_end(n: u64, bytes: &[u8]) -> Option<u64>
    requires { n + 1 < 2 ^ 64 }
    ensures { result ≡ bad_with_end n bytes.now }
{
    match behind(bytes, b"end\n") {
        Some(rest) => bad_behind(n, rest),
        None => Some(n),
    }
}

/// The line behind line n is bad where something stands there.
fn bad_behind(n: u64, rest: &[u8]) -> Option<u64>
    requires { n + 1 < 2 ^ 64 }
    ensures { result ≡ bad_of_rest n rest.now }
{
    if rest.is_empty() { None } else { Some(n + 1) }
}

/// The line behind the first line `end`, where something stands there. The first line of the text is line `first`.
fn bad_behind_end(first: u64, text: &[u8]) -> Option<u64>
    requires { first + length text.now + 1 < 2 ^ 64 }
    ensures { result ≡ bad_behind_pieces first (pieces_of text.now) }
{
    let mut rest = text;
    let mut n = first;
    while let Some((line, behind)) = cut_at(rest, b'\n') {
        if line == b"end".as_slice() {
            return bad_behind(n, behind);
        }
        rest = behind;
        n += 1;
    }
    None
}

fn has_head(text: &[u8]) -> bool
    ensures { result ≡ begins_annotation text.now }
{
    head_of(text).is_some()
}

/// What stands behind the word of an annotation's head in the first line, and the bytes behind that line.
fn head_of(text: &[u8]) -> Option<(&[u8], &[u8])>
    ensures { option_map (λ p. (p.0.now, p.1.now)) result ≡ front (behind_front (codes "annotation ")) text.now }
{
    let (line, rest) = cut_at(text, b'\n')?;
    let words = behind(line, b"annotation ")?;
    Some((words, rest))
}
