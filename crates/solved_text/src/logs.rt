//! The logs of a document.
ghost use Rattle.std.specs.Prelude.{◌≡◌, ◌+◌, ◌<◌, ◌^◌, IfOk, None, length};
ghost use Rattle.solved_text.specs.Logs.{ReadsLogs};
ghost use Rattle.solved_text.specs.Shown.{IsLogAt, shown_logs};

use crate::documents::SizeLog;
use crate::heads::{Head, next_head};
use document_text::{FirstEntries, first_entries};
use std::alloc::{AllocError, Global};

/// What was read of a document's logs, the line behind that, and the bytes from there on; none where that line is bad.
#[derive(Drop)]
pub struct LogsRead<'a> {
    pub logs: Vec<SizeLog>,
    pub line: u64,
    pub rest: Option<&'a [u8]>,
}

/// Reads the logs of the sizes from 1 to `refuted`, the first of which begins in line `first`.
pub(crate) fn read_logs(
    alloc: Global,
    refuted: u32,
    first: u64,
    bytes: &[u8],
) -> Result<LogsRead<'_>, AllocError>
    requires { first + length bytes.now + 2 < 2 ^ 64 }
    ensures { IfOk result (λ read. ReadsLogs refuted 0 first bytes.now (shown_logs read)) }
{
    let mut logs = Vec::new(alloc);
    let mut last = 0;
    let mut line = first;
    let mut rest = bytes;
    while last < refuted {
        let Some((head, tail)) = next_head(alloc, last + 1, rest)? else {
            return Ok(stopped(logs, line));
        };
        let wanted = head.count;
        let (log, after) = take_log(alloc, head, line, tail)?;
        let count = log.entries.len() as u64;
        logs.push(log)?;
        line = line + 1 + count;
        if count < wanted {
            return Ok(stopped(logs, line));
        }
        last += 1;
        rest = after;
    }
    Ok(LogsRead {
        logs,
        line,
        rest: Some(rest),
    })
}

/// Line n is the first bad one.
fn stopped<'a>(logs: Vec<SizeLog>, n: u64) -> LogsRead<'a>
    ensures { shown_logs result ≡ record { logs = logs.items; line = n; rest = None } }
{
    LogsRead {
        logs,
        line: n,
        rest: None,
    }
}

/// The log with this head in that line, as far as its entries come next, and the bytes behind it.
fn take_log(
    alloc: Global,
    head: Head,
    line: u64,
    bytes: &[u8],
) -> Result<(SizeLog, &[u8]), AllocError>
    ensures { IfOk result (λ read. IsLogAt head line bytes.now read.0 read.1.now) }
{
    let FirstEntries { entries, rest } = first_entries(alloc, head.vars, head.count, bytes)?;
    Ok((head.log(entries, line), rest))
}
