//! The proofs of a witness's obligations.
ghost use Rattle.std.specs.Prelude.{◌≡◌, ◌+◌, ◌<◌, ◌^◌, IfOk, None, length, option_map};
ghost use Rattle.document_text.specs.Header.{front};
ghost use Rattle.witness_text.specs.Forms.{head_in as head_of_line, head_of as head_of_text};
ghost use Rattle.witness_text.specs.Lines.{proof_words as words_of_proof, words_of_part as words_of_one};
ghost use Rattle.witness_text.specs.Logs.{ReadsLogs, log_of};
ghost use Rattle.witness_text.specs.Shown.{IsLogAt, shown_logs};

use aiger_text::{cut_at, number_within};
use document_text::{FirstEntries, behind, first_entries};
use refutation_log::Entry;
use std::alloc::{AllocError, Global};
use truth_witness::ObligationLog;

/// What a proof's head states.
#[derive(Clone, Copy)]
pub struct ProofHead {
    pub vars: u32,
    pub base: u64,
    pub count: u64,
}

/// What was read of the proofs, how many of them have all entries, the line behind that, and the bytes from there on; none where that
/// line is bad.
#[derive(Drop)]
pub struct LogsRead<'a> {
    pub logs: Vec<ObligationLog>,
    pub whole: usize,
    pub line: u64,
    pub rest: Option<&'a [u8]>,
}

impl ProofHead {
    fn log(self, entries: Vec<Entry>) -> ObligationLog
        ensures { result ≡ log_of self entries.items }
    {
        ObligationLog {
            vars: self.vars,
            base: self.base,
            entries,
        }
    }
}

/// Reads so many proofs, the first of which begins in line `first`.
pub(crate) fn read_logs(
    alloc: Global,
    count: usize,
    first: u64,
    bytes: &[u8],
) -> Result<LogsRead<'_>, AllocError>
    requires { first + length bytes.now + 2 < 2 ^ 64 }
    ensures { IfOk result (λ read. ReadsLogs count 0 first bytes.now (shown_logs read)) }
{
    let mut logs = Vec::new(alloc);
    let mut line = first;
    let mut rest = bytes;
    while logs.len() < count {
        let whole = logs.len();
        let Some((head, tail)) = next_head(whole, rest) else {
            return Ok(stopped(logs, whole, line));
        };
        let (log, after) = take_log(alloc, head, tail)?;
        let entries = log.entries.len() as u64;
        logs.push(log)?;
        line = line + 1 + entries;
        if entries < head.count {
            return Ok(stopped(logs, whole, line));
        }
        rest = after;
    }
    Ok(LogsRead {
        whole: logs.len(),
        logs,
        line,
        rest: Some(rest),
    })
}

/// Line n is the first bad one.
fn stopped<'a>(logs: Vec<ObligationLog>, whole: usize, n: u64) -> LogsRead<'a>
    ensures { shown_logs result ≡ record { logs = logs.items; whole = whole; line = n; rest = None } }
{
    LogsRead {
        logs,
        whole,
        line: n,
        rest: None,
    }
}

/// The log with this head, as far as its entries come next, and the bytes behind it.
fn take_log(
    alloc: Global,
    head: ProofHead,
    bytes: &[u8],
) -> Result<(ObligationLog, &[u8]), AllocError>
    ensures { IfOk result (λ read. IsLogAt head bytes.now read.0 read.1.now) }
{
    let FirstEntries { entries, rest } = first_entries(alloc, head.vars, head.count, bytes)?;
    Ok((head.log(entries), rest))
}

/// What the head of the proof at this place states, and the bytes behind it, where it comes first.
fn next_head(place: usize, bytes: &[u8]) -> Option<(ProofHead, &[u8])>
    ensures { option_map (λ p. (p.0, p.1.now)) result ≡ front (head_of_line place) bytes.now }
{
    let (line, rest) = cut_at(bytes, b'\n')?;
    let head = head_in(place, line)?;
    Some((head, rest))
}

fn head_in(place: usize, line: &[u8]) -> Option<ProofHead>
    ensures { result ≡ head_of_line place line.now }
{
    head_of(behind(line, proof_words(place))?)
}

fn head_of(text: &[u8]) -> Option<ProofHead>
    ensures { result ≡ head_of_text text.now }
{
    let (vars, text) = cut_at(text, b' ')?;
    let (base, count) = cut_at(text, b' ')?;
    let vars = number_within(vars, u64::from(u32::MAX))?;
    let base = number_within(base, u64::MAX)?;
    let count = number_within(count, u64::MAX)?;
    Some(ProofHead {
        vars: vars as u32,
        base,
        count,
    })
}

/// What the head of the proof at this place begins with: three are of the whole, then three of each part.
pub(crate) fn proof_words(place: usize) -> &'static [u8]
    ensures { result.now ≡ words_of_proof place }
{
    match place {
        0 => b"proof base ",
        1 => b"proof keep ",
        2 => b"proof cover ",
        _ => words_of_part(place),
    }
}

fn words_of_part(place: usize) -> &'static [u8]
    ensures { result.now ≡ words_of_one place }
{
    match place % 3 {
        0 => b"proof enter ",
        1 => b"proof stay ",
        _ => b"proof fall ",
    }
}
