//! A document before it is printed.
ghost use Rattle.std.specs.Prelude.{◌≡◌, ◌≤◌, All, IfOk, IfSome, length};
ghost use Rattle.std.specs.Bool.{OnTrue};
ghost use Rattle.solve_answer.specs.Parts.{AnswersEach, AreLogsOf, CanBePlayed, HaveShortLogs, status_of as status_for};

use crate::documents::text_of;
use crate::refuting::Refuting;
use program_replies::{Reply, Status};
use solve_check::{Checked, check_solved};
use solve_ground::SolveText;
use solved_text::laws::solved_are_determined;
use solved_text::{Document, SizeLog, Verdict, read_solved};
use std::alloc::{AllocError, Global};

/// The reply that has a document, where it is accepted, refutes no size above the greatest that is asked for, if one is, and has no log with more
/// entries than are asked for; else its first bad line, or 0 where it has none.
pub(crate) fn tested(
    alloc: Global,
    text: &SolveText,
    document: &Document,
    refuting: Refuting,
) -> Result<Result<Reply, u64>, AllocError>
    requires { CanBePlayed text.now }
    ensures { IfOk result (λ tested. IfOk tested (AnswersEach text.now refuting)) }
{
    let bytes = text_of(alloc, document)?;
    match check_solved(alloc, text, &bytes)? {
        Checked::Accepted(accepted) => {
            if !is_asked_for(refuting.max, accepted.refuted) {
                return Ok(Err(0));
            }
            let short = have_short_logs(alloc, refuting.entries, &bytes)?;
            if !short {
                return Ok(Err(0));
            }
            Ok(Ok(Reply {
                bytes,
                status: status_of(accepted.verdict),
            }))
        }
        Checked::BadLine(line) => Ok(Err(line)),
    }
}

/// Whether so many sizes may be refuted.
fn is_asked_for(most: Option<u32>, refuted: usize) -> bool
    ensures { OnTrue result (IfSome most (λ m. refuted ≤ m)) }
{
    match most {
        Some(most) => refuted as u64 <= u64::from(most),
        None => true,
    }
}

/// Whether each log that these bytes state has at most so many entries. Where there is a limit, it reads them.
fn have_short_logs(alloc: Global, most: Option<u64>, bytes: &[u8]) -> Result<bool, AllocError>
    ensures { IfOk result (λ short. OnTrue short (HaveShortLogs most bytes.now)) }
{
    solved_are_determined();
    let Some(most) = most else {
        return Ok(true);
    };
    let logs = logs_in(alloc, bytes)?;
    Ok(are_short(&logs, most))
}

/// The logs that these bytes state.
fn logs_in(alloc: Global, bytes: &[u8]) -> Result<Vec<SizeLog>, AllocError>
    ensures { IfOk result (λ logs. AreLogsOf bytes.now logs.items) }
{
    let lines = read_solved(alloc, bytes)?;
    Ok(lines.logs)
}

fn are_short(logs: &[SizeLog], most: u64) -> bool
    ensures { OnTrue result (All (λ l. length l.entries ≤ most) logs.now) }
{
    logs.iter().all(|log| is_short(log, most))
}

/// Whether a log has at most so many entries.
pub(crate) fn is_short(log: &SizeLog, most: u64) -> bool
    ensures { OnTrue result (length log.now.entries ≤ most) }
{
    log.entries.len() as u64 <= most
}

/// The status of a document of this verdict.
fn status_of(verdict: Verdict) -> Status
    ensures { result ≡ status_for verdict }
{
    match verdict {
        Verdict::Realizable(_) => Status::Realizable,
        Verdict::Unrealizable(_) => Status::Unrealizable,
        Verdict::Unknown => Status::Unknown,
    }
}
