//! The text of a list of files.
ghost use Rattle.std.specs.Prelude.{◌≡◌, ◌<◌, ◌≤◌, ℕ, Err, IfNone, IfOk, IfSome, length};
ghost use Rattle.std.specs.Bool.{MatchBool};
ghost use Rattle.batch_answer.specs.declared.list.ListFault.TheVariants.{BadLine, NoMemory};
ghost use Rattle.batch_answer.specs.ListText.{BeginsName, IsBadNext, IsFirstBadLineOfList, IsFirstLine, IsList, IsName, IsNext, IsOneLine, most_lines};

use crate::file_name::FileName;
use std::alloc::{AllocError, AllocFailed, Global};

/// Why bytes are no list.
#[derive(Clone, Copy)]
pub enum ListFault {
    /// The first line that is refused, counted from 1.
    BadLine(u64),
    /// There was no memory.
    NoMemory,
}

impl From<AllocError> for ListFault {
    ghost from_gives = { λ _ fault. fault ≡ NoMemory };

    fn from(_error: AllocError) -> ListFault {
        ListFault::NoMemory
    }
}

impl<T: Drop> From<AllocFailed<T>> for ListFault {
    ghost from_gives = { λ _ fault. fault ≡ NoMemory };

    fn from(_error: AllocFailed<T>) -> ListFault {
        ListFault::NoMemory
    }
}

/// The most lines of a list.
const MOST_LINES: usize = 64;

/// The names that a list has in its lines, each of which ends with LF. A line is refused if it isn't UTF-8, is empty, begins with `-` or
/// has no end, and so is the 65th.
pub fn read_list(alloc: Global, bytes: &[u8]) -> Result<Vec<FileName>, ListFault>
    ensures list { IfOk result (λ names. IsList bytes.now names.items) }
    ensures bad { (n : ℕ) → result ≡ Err (BadLine n) → IsFirstBadLineOfList bytes.now n }
{
    let mut names = Vec::new(alloc);
    let mut rest = bytes;
    while !rest.is_empty() {
        let Some(name) = next_name(rest, names.len()) else {
            return Err(ListFault::BadLine(names.len() as u64 + 1));
        };
        names.push(FileName::new(alloc, name)?)?;
        rest = &rest[name.len() + 1..];
    }
    Ok(names)
}

/// The name with which the bytes behind so many lines go on, if they go on with a line of a list.
fn next_name(rest: &[u8], count: usize) -> Option<&str>
    requires left { 0 < length rest.now }
    requires few { count ≤ most_lines }
    ensures next { IfSome result (λ name. IsNext count rest.now name.now) }
    ensures bad { IfNone result (IsBadNext count rest.now) }
{
    if count == MOST_LINES {
        return None;
    }
    let line = first_line(rest)?;
    name_in(line)
}

/// The bytes before the first line end.
fn first_line(bytes: &[u8]) -> Option<&[u8]>
    ensures line { IfSome result (λ line. IsFirstLine bytes.now line.now) }
    ensures not_ended { IfNone result (IsOneLine bytes.now) }
{
    let end = bytes.iter().position(|byte| *byte == b'\n')?;
    Some(&bytes[..end])
}

/// The name of a file that a line is, if it is one.
fn name_in(line: &[u8]) -> Option<&str>
    requires one_line { IsOneLine line.now }
    ensures name { IfSome result (λ name. (name.now ≡ line.now) × IsName line.now) }
    ensures no_name { IfNone result (IsName line.now → ⊥) }
{
    if !begins_name(line) {
        return None;
    }
    str::from_utf8(line).ok()
}

/// Whether there is a first byte, which isn't `-`.
fn begins_name(line: &[u8]) -> bool
    ensures { MatchBool result (BeginsName line.now) (BeginsName line.now → ⊥) }
{
    match line.first() {
        Some(first) => *first != b'-',
        None => false,
    }
}
