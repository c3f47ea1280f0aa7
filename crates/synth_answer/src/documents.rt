//! Documents over the logs of a search.
ghost use Rattle.std.specs.Prelude.{◌≡◌, ◌<◌, ◌^◌, All, IfOk, length, map};
ghost use Rattle.synth_answer.specs.Holds.{document_version};
ghost use Rattle.synth_answer.specs.Reply.{IsShort, StatesIfGood, document_of, part_of as part_seen};

use aiger_text::Circuit;
use document_text::{Document, LogPart, Verdict, write_document};
use letters_and_lassos::Kind;
use machine_model::Counts;
use size_search::SizeLog;
use std::alloc::{AllocError, Global};
use synth_engine::Settings;

/// The text of a document with these settings.
pub fn document_text(
    alloc: Global,
    kind: Kind,
    settings: Settings,
    verdict: Verdict,
    circuit: Option<Circuit>,
    logs: Vec<LogPart>,
) -> Result<Vec<u8>, AllocError>
    ensures { IfOk result (λ bytes. StatesIfGood bytes.items (document_of kind settings verdict circuit logs.items)) }
{
    let document = Document {
        version: document_version(settings.counts()),
        verdict,
        kind,
        max: settings.max(),
        entries: settings.entries(),
        found: 0,
        circuit,
        logs,
        name_lines: Vec::new(alloc),
        comment_line: 0,
        verdict_line: 0,
    };
    let mut bytes = Vec::new(alloc);
    write_document(&document, &mut bytes)?;
    Ok(bytes)
}

/// The version of a document whose logs are over base clauses that count so.
fn document_version(counts: Counts) -> u32
    ensures { result ≡ document_version counts }
{
    match counts {
        Counts::Whole => 3,
        Counts::Local => 5,
    }
}

/// The logs of a search as those of a document.
pub fn parts_of(alloc: Global, logs: Vec<SizeLog>) -> Result<Vec<LogPart>, AllocError>
    ensures parts { IfOk result (λ parts. parts.items ≡ map part_seen logs.items) }
    ensures short { IfOk result (λ parts. All IsShort logs.items) }
{
    let mut parts = Vec::new(alloc);
    for log in logs {
        parts.push(part_of(log)?)?;
    }
    Ok(parts)
}

fn part_of(log: SizeLog) -> Result<LogPart, AllocError>
    ensures part { IfOk result (λ part. part ≡ part_seen log) }
    ensures short { IfOk result (λ part. IsShort log) }
{
    let SizeLog {
        side,
        size,
        vars,
        base,
        log,
    } = log;
    let _count = log.entries();
    Ok(LogPart {
        side,
        size,
        vars,
        base,
        entries: log.into_entries()?,
        line: 0,
    })
}
