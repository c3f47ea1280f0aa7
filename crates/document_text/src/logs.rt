//! The logs of a document.
ghost use Rattle.std.specs.Prelude.{◌≡◌, ◌+◌, ◌<◌, ◌≤◌, ◌^◌, IfOk, Some, length, option_map};
ghost use Rattle.std.specs.Option.{option_copied};
ghost use Rattle.refutation_log.specs.Read.{StatesEntry, IsReadBy};
ghost use Rattle.document_text.specs.Header.{front};
ghost use Rattle.document_text.specs.Order.{first_place, place as place_at};
ghost use Rattle.document_text.specs.Logs.{AreFirstEntries, ReadsLogs, behind_end as end_behind, head_behind as head_of_text, head_in as head_of_line, next_head as head_next, part_of, bad_behind};
ghost use Rattle.document_text.specs.Shown.{shown_logs};

use crate::documents::LogPart;
use crate::order::{Order, Place};
use crate::words::behind;
use aiger_text::{cut_at, number_within};
use letters_and_lassos::Side;
use refutation_log::{Entry, LogTextFault, read_log};
use std::alloc::{AllocError, Global};

/// What a log's head states.
#[derive(Clone, Copy)]
pub struct Head {
    pub side: Side,
    pub size: u32,
    pub vars: u32,
    pub base: u64,
    pub count: u64,
}

/// What was read of a document's logs, and the first bad line of them.
#[derive(Drop)]
pub struct LogsRead {
    pub logs: Vec<LogPart>,
    pub bad: Option<u64>,
}

/// The first entries of a text, and the bytes behind them.
#[derive(Drop)]
pub struct FirstEntries<'a> {
    pub entries: Vec<Entry>,
    pub rest: &'a [u8],
}

impl Head {
    fn place(self) -> Place
        ensures { result ≡ place_at self.side self.size }
    {
        Place {
            side: self.side,
            size: self.size,
        }
    }

    /// The log with this head in that line.
    fn part(self, entries: Vec<Entry>, line: u64) -> LogPart
        ensures { result ≡ part_of self entries.items line }
    {
        LogPart {
            side: self.side,
            size: self.size,
            vars: self.vars,
            base: self.base,
            entries,
            line,
        }
    }
}

/// Reads the logs from line `first` on, and the line that ends a document.
pub(crate) fn read_logs(
    alloc: Global,
    order: Order,
    first: u64,
    bytes: &[u8],
) -> Result<LogsRead, AllocError>
    requires { first + length bytes.now + 2 < 2 ^ 64 }
    ensures { IfOk result (λ read. ReadsLogs order (first_place order) first bytes.now (shown_logs read)) }
{
    let mut logs = Vec::new(alloc);
    let mut last = order.start();
    let mut line = first;
    let mut rest = bytes;
    loop {
        if let Some(after) = behind_end(order, last, rest) {
            return Ok(ended(logs, line, after));
        }
        let Some((head, tail)) = next_head(order, last, rest) else {
            return Ok(stopped(logs, line));
        };
        let FirstEntries {
            entries,
            rest: after,
        } = first_entries(alloc, head.vars, head.count, tail)?;
        let count = entries.len() as u64;
        logs.push(head.part(entries, line))?;
        line = line + 1 + count;
        if count < head.count {
            return Ok(stopped(logs, line));
        }
        last = head.place();
        rest = after;
    }
}

/// Line n is the first bad one.
fn stopped(logs: Vec<LogPart>, n: u64) -> LogsRead
    ensures { shown_logs result ≡ record { logs = logs.items; bad = Some n } }
{
    LogsRead { logs, bad: Some(n) }
}

/// The document ends in line n; what stands behind that is a bad line.
fn ended(logs: Vec<LogPart>, n: u64, behind: &[u8]) -> LogsRead
    requires { n + 1 < 2 ^ 64 }
    ensures { shown_logs result ≡ record { logs = logs.items; bad = bad_behind n behind.now } }
{
    let bad = if behind.is_empty() { None } else { Some(n + 1) };
    LogsRead { logs, bad }
}

fn behind_end(order: Order, last: Place, bytes: &[u8]) -> Option<&[u8]>
    ensures { option_copied result ≡ end_behind order last bytes.now }
{
    if order.may_end(last) {
        behind(bytes, b"end\n")
    } else {
        None
    }
}

fn next_head(order: Order, last: Place, bytes: &[u8]) -> Option<(Head, &[u8])>
    ensures { option_map (λ p. (p.0, p.1.now)) result ≡ front (head_next order last) bytes.now }
{
    let (line, rest) = cut_at(bytes, b'\n')?;
    let head = head_in(line)?;
    if order.may_follow(last, head.place()) {
        Some((head, rest))
    } else {
        None
    }
}

fn head_in(line: &[u8]) -> Option<Head>
    ensures { result ≡ head_of_line line.now }
{
    match behind(line, b"log system ") {
        Some(text) => head_behind(Side::System, text),
        None => head_behind(Side::Environment, behind(line, b"log environment ")?),
    }
}

fn head_behind(side: Side, text: &[u8]) -> Option<Head>
    ensures { result ≡ head_of_text side text.now }
{
    let (size, text) = cut_at(text, b' ')?;
    let (vars, text) = cut_at(text, b' ')?;
    let (base, count) = cut_at(text, b' ')?;
    let size = number_within(size, u64::from(u32::MAX))?;
    let vars = number_within(vars, u64::from(u32::MAX))?;
    let base = number_within(base, u64::MAX)?;
    let count = number_within(count, u64::MAX)?;
    Some(Head {
        side,
        size: size as u32,
        vars: vars as u32,
        base,
        count,
    })
}

/// The first entries of a text, at most so many.
pub fn first_entries(
    alloc: Global,
    vars: u32,
    count: u64,
    bytes: &[u8],
) -> Result<FirstEntries<'_>, AllocError>
    ensures { IfOk result (λ read. AreFirstEntries vars count bytes.now read.entries.items read.rest.now) }
{
    let mut entries = Vec::new(alloc);
    let mut rest = bytes;
    while (entries.len() as u64) < count {
        let Some((entry, after)) = take_entry(alloc, vars, rest)? else {
            return Ok(FirstEntries { entries, rest });
        };
        entries.push(entry)?;
        rest = after;
    }
    Ok(FirstEntries { entries, rest })
}

/// The entry whose line comes first, and the bytes behind it.
fn take_entry(alloc: Global, vars: u32, bytes: &[u8]) -> Result<Option<(Entry, &[u8])>, AllocError>
    ensures { IfOk result (IsReadBy (λ entry. entry) (StatesEntry vars bytes.now)) }
{
    let mut log = match read_log(alloc, bytes, vars, 1) {
        Ok(log) => log,
        Err(LogTextFault::NoMemory) => return Err(AllocError),
        Err(LogTextFault::BadLine(_)) => return Ok(None),
        Err(LogTextFault::WrongCount) => return Ok(None),
    };
    match log.entries.pop() {
        Some(entry) => Ok(Some((entry, &bytes[log.used..]))),
        None => Ok(None),
    }
}
