ghost use Rattle.std.specs.Bool.{OnTrue};
ghost use Rattle.std.specs.Prelude.{if◌then◌else◌, [], ◌∷◌, ◌≢◌, nat_lt, nat_eq, slice_index, length, ◌&&◌, ◌≡◌, ◌++◌, ◌-◌, ◌^◌, ℕ, List, All, IfOk, IfSome, IfNone, IsErrOf, Err, ◌<◌};
ghost use Rattle.refutation_log.specs.declared.read.LogTextFault.TheVariants.{BadLine, WrongCount, NoMemory};
ghost use Rattle.propositional_logic.specs.Clause.{IsClause, IsWithinVariables};
ghost use Rattle.refutation_log.specs.Read.{StatesEntry, IsReadAs, IsBadLine, IsTooShort, IsReadBy, StatesNumber, StatesLiteral, StatesLiterals, StatesHint, StatesHints};

use crate::{Entry, Hints, SharedClause};
use names_and_numbers::{Cursor, read_number};
use propositional_logic::{Clause, ClauseFault, Lit};
use std::alloc::{AllocError, AllocFailed, Global};

/// The entries of a text of entry lines, and how many bytes their lines are.
#[derive(Debug, Drop)]
pub struct LogText {
    pub entries: Vec<Entry>,
    pub used: usize,
}

/// Why `read_log` refused its bytes.
#[derive(Clone, Copy, Debug, PartialEq, Eq)]
pub enum LogTextFault {
    /// The line of that number, from 1, isn't an entry line.
    BadLine(u64),
    /// The bytes end before as many lines as were asked for.
    WrongCount,
    /// There was no memory.
    NoMemory,
}

impl From<AllocError> for LogTextFault {
    ghost from_gives = { λ _ fault. fault ≡ NoMemory };

    fn from(_error: AllocError) -> LogTextFault {
        LogTextFault::NoMemory
    }
}

impl<T: Drop> From<AllocFailed<T>> for LogTextFault {
    ghost from_gives = { λ _ fault. fault ≡ NoMemory };

    fn from(_error: AllocFailed<T>) -> LogTextFault {
        LogTextFault::NoMemory
    }
}

/// Reads the entries of the first `count` lines, over the variables 1 to `vars`. What comes after these lines is left alone.
///
/// Refused at the first line that isn't an entry line, else where the bytes end before so many lines. Costs the lines' bytes, and
/// that each clause is brought into order.
pub fn read_log(alloc: Global, lines: &[u8], vars: u32, count: u64) -> Result<LogText, LogTextFault>
    ensures ok { IfOk result (λ log. IsReadAs vars count lines.now log.entries.items log.used) }
    ensures bad_line { (n : ℕ) → IsErrOf result (BadLine n) → IsBadLine vars count lines.now n }
    ensures wrong_count { IsErrOf result WrongCount → IsTooShort vars count lines.now }

    // No memory is asked for before the first line is there, whatever the count.
    ensures no_lines { lines.now ≡ [] → 0 < count → result ≡ Err WrongCount }
{
    let mut entries = Vec::new(alloc);
    let mut rest = lines;
    for n in 0..count {
        if rest.is_empty() {
            return Err(LogTextFault::WrongCount);
        }
        let Some((entry, after)) = take_entry(alloc, rest, vars)? else {
            return Err(LogTextFault::BadLine(n + 1));
        };
        entries.push(entry)?;
        rest = after;
    }
    let used = lines.len() - rest.len();
    Ok(LogText { entries, used })
}

/// The entry whose line comes first, and the bytes after it.
fn take_entry<'a>(
    alloc: Global,
    bytes: &'a [u8],
    vars: u32,
) -> Result<Option<(Entry, &'a [u8])>, AllocError>
    ensures { IfOk result (IsReadBy (λ entry. entry) (StatesEntry vars bytes.now)) }
{
    let Some((by, bytes)) = take_worker(bytes) else {
        return Ok(None);
    };
    let Some((lits, bytes)) = take_literals(alloc, bytes)? else {
        return Ok(None);
    };
    let Some((numbers, bytes)) = take_hints(alloc, bytes)? else {
        return Ok(None);
    };
    let Some(clause) = clause_as_written(alloc, vars, &lits)? else {
        return Ok(None);
    };
    let clause = SharedClause::new(alloc, clause)?;
    let hints = Hints::new(alloc, &numbers)?;
    Ok(Some((Entry { by, clause, hints }, bytes)))
}

/// The clause with exactly these literals in this order, if there is one.
fn clause_as_written(alloc: Global, vars: u32, lits: &[Lit]) -> Result<Option<Clause>, AllocError>
    ensures some { IfOk result (λ found. IfSome found (λ clause. (clause ≡ lits.now) × IsClause lits.now × IsWithinVariables vars lits.now)) }
    ensures none { IfOk result (λ found. IfNone found (IsClause lits.now → IsWithinVariables vars lits.now → ⊥)) }
{
    let clause = match Clause::new(alloc, vars, lits) {
        Ok(clause) => clause,
        Err(ClauseFault::NoMemory) => return Err(AllocError),
        Err(ClauseFault::BadVariable) => return Ok(None),
        Err(ClauseFault::Tautology) => return Ok(None),
    };
    if clause.lits() == lits {
        Ok(Some(clause))
    } else {
        Ok(None)
    }
}

/// The literals whose words come first, up to their `0`, and the bytes after it.
fn take_literals<'a>(
    alloc: Global,
    bytes: &'a [u8],
) -> Result<Option<(Vec<Lit>, &'a [u8])>, AllocError>
    ensures { IfOk result (IsReadBy (λ lits. lits.items) (StatesLiterals bytes.now)) }
{
    let mut lits = Vec::new(alloc);
    let mut rest = bytes;
    while let Some((lit, after)) = take_literal(rest) {
        lits.push(lit)?;
        rest = after;
    }
    match rest.strip_prefix(b"0 ") {
        Some(rest) => Ok(Some((lits, rest))),
        None => Ok(None),
    }
}

/// The hints whose words come first, up to their `0` at the line's end, and the bytes after it.
fn take_hints<'a>(
    alloc: Global,
    bytes: &'a [u8],
) -> Result<Option<(Vec<u64>, &'a [u8])>, AllocError>
    ensures { IfOk result (IsReadBy (λ hints. hints.items) (StatesHints bytes.now)) }
{
    let mut hints = Vec::new(alloc);
    let mut rest = bytes;
    while let Some((hint, after)) = take_hint(rest) {
        hints.push(hint)?;
        rest = after;
    }
    match rest.strip_prefix(b"0\n") {
        Some(rest) => Ok(Some((hints, rest))),
        None => Ok(None),
    }
}

/// The literal whose word comes first, and the bytes after it.
fn take_literal(bytes: &[u8]) -> Option<(Lit, &[u8])>
    ensures { IsReadBy (λ lit. lit) (StatesLiteral bytes.now) result }
{
    let (positive, digits) = take_sign(bytes);
    let (var, rest) = take_number(digits, 1 << 30)?;
    if var == 0 {
        return None;
    }
    Some((Lit::new(var as u32, positive), rest))
}

/// Whether no `-` comes first, and the bytes after it.
fn take_sign(bytes: &[u8]) -> (bool, &[u8])
    ensures text { bytes.now ≡ (if result.0 then [] else 45 ∷ []) ++ result.1.now }
    ensures positive { OnTrue result.0 ((rest : List ℕ) → bytes.now ≢ 45 ∷ rest) }
{
    match bytes.strip_prefix(b"-") {
        Some(digits) => (false, digits),
        None => (true, bytes),
    }
}

/// The hint whose word comes first, and the bytes after it.
fn take_hint(bytes: &[u8]) -> Option<(u64, &[u8])>
    ensures { IsReadBy (λ hint. hint) (StatesHint bytes.now) result }
{
    let (hint, rest) = take_number(bytes, u64::MAX)?;
    if hint == 0 {
        return None;
    }
    Some((hint, rest))
}

/// The worker's number, which comes first, and the bytes after its space.
fn take_worker(bytes: &[u8]) -> Option<(u32, &[u8])>
    ensures { IsReadBy (λ by. by) (StatesNumber (2 ^ 32 - 1) bytes.now) result }
{
    let (by, rest) = take_number(bytes, u64::from(u32::MAX))?;
    Some((by as u32, rest))
}

/// The number of at most `most` that comes first, without leading zeros, and the bytes after its space.
fn take_number(bytes: &[u8], most: u64) -> Option<(u64, &[u8])>
    ensures { IsReadBy (λ n. n) (StatesNumber most bytes.now) result }
{
    let mut cursor = Cursor::new(bytes);
    let Ok(number) = read_number(&mut cursor, most) else {
        return None;
    };
    let digits = cursor.at();
    if has_leading_zero(&bytes[..digits]) {
        return None;
    }
    let rest = bytes[digits..].strip_prefix(b" ")?;
    Some((number, rest))
}

/// Whether a zero stands before other digits.
fn has_leading_zero(digits: &[u8]) -> bool
    ensures { result ≡ (nat_lt 1 (length digits.now) && nat_eq (slice_index digits.now 0) 48) }
{
    digits.len() > 1 && digits[0] == b'0'
}
