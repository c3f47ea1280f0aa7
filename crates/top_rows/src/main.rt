//! Rows of whole runs of the program, over files and a sink in memory. On standard input stands a heading `==== WAY ..` and then lines, up
//! to the next heading; on standard output the heading of each run, its status and what was written. What the stored run must print
//! follows from the definitions alone.
//!
//! `file NAME` keeps the lines below it under that name, and `bytes NAME` the bytes whose numbers stand there. `grown COUNT DAMAGED NAME`
//! keeps a document with a log of so many entries (module grown). The other ways run the program.
//!
//! `run WORDS`: on these words. `shelf K WORDS` and `sink K WORDS`: with the K-th call of the shelf or the sink failing. `sinks N WORDS`:
//! with each of the first N calls of the sink failing in turn; of each run stand its status and the number of lines that were written.
//! `status WORDS`: of the run stands its status alone. `unended NAME WORDS`, `zeroed NAME WORDS` and `padded N NAME WORDS`: with the
//! file without its last byte, with a zero byte in place of its first one, and with blanks at its end up to N bytes. `fronts NAME
//! WORDS`: with each front of whole lines of that file in its place, the whole file apart.
//!
//! `keep NAME WORDS`: what is written is kept under that name, and its verdict alone is printed. `undecided NAME WORDS`: what is written
//! is kept, and whether a log is full that left it undecided if a machine is the smallest, or if there is one. `outline NAME WORDS`: the
//! documents within what is written are kept under that name with their numbers, and what stands around them is printed. `show NAME` and
//! `frame NAME`: a file, or those of its lines that have a letter.
//!
//! `held WORDS`: with a gate that holds one worker back until another has added to the same log; behind the run stands whether they met
//! there. `met WORDS`: the same, with the verdict in place of what was written. `shared LOG WORDS`: with a gate at which one worker on
//! that log waits until another has added to it; behind the verdict stands whether the first log that is written has entries of two
//! workers, the caller apart, and whether they met.
#![tactic(auto)]

mod changed;
mod documents;
mod gates;
mod grown;
mod runs;
mod told;

use anyhow::{Context, bail};
use changed::{push_cut, push_fronts, push_padded};
use documents::{push_frame, push_outline, push_shown};
use gates::{push_held, push_met, push_shared};
use grown::grown;
use runs::{Faults, File, NO_FAULTS, run_on};
use std::alloc::Global;
use std::io::{self, Write};
use std::sync::Wait;
use std::thread::Threads;
use told::{numbered, push_ended, push_status, verdict_line};

/// What stands before each heading.
const HEADING: &str = "==== ";

/// The status of each run, and how many lines were written.
fn push_sink_faults<R: Threads + Wait + Sync>(
    rt: &R,
    alloc: Global,
    files: &[File],
    rest: &str,
    out: &mut Vec<u8>,
) -> anyhow::Result<()> {
    let (most, words) = numbered(rest)?;
    for call in 0..most {
        let faults = Faults {
            shelf: None,
            sink: Some(call + 1),
        };
        let ended = run_on(rt, alloc, words, files, faults)?;
        let lines = ended.written.iter().filter(|byte| **byte == b'\n').count();
        let line = format!(in alloc; "status {}, {lines} lines\n", ended.status)?;
        out.extend_from_slice(line.as_bytes())?;
    }
    Ok(())
}

/// Keeps what was written as a file of this name.
fn push_kept<R: Threads + Wait + Sync>(
    rt: &R,
    alloc: Global,
    files: &mut Vec<File>,
    rest: &str,
    out: &mut Vec<u8>,
) -> anyhow::Result<()> {
    let (name, words) = rest.split_once(' ').context("no name")?;
    let ended = run_on(rt, alloc, words, files, NO_FAULTS)?;
    push_status(alloc, ended.status, out)?;
    out.extend_from_slice(verdict_line(&ended.written))?;
    files.push(File::new(alloc, name, &ended.written)?)?;
    Ok(())
}

/// What comes of a run with a failing call.
fn push_failing<R: Threads + Wait + Sync>(
    rt: &R,
    alloc: Global,
    files: &[File],
    way: &str,
    rest: &str,
    out: &mut Vec<u8>,
) -> anyhow::Result<()> {
    let (call, words) = numbered(rest)?;
    let faults = if way == "shelf" {
        Faults {
            shelf: Some(call),
            sink: None,
        }
    } else {
        Faults {
            shelf: None,
            sink: Some(call),
        }
    };
    let ended = run_on(rt, alloc, words, files, faults)?;
    push_ended(alloc, &ended, out)?;
    Ok(())
}

/// Keeps what was written, where a log is full, so that a machine needn't be the smallest or none was found. Which of both comes
/// depends on the schedule.
fn push_undecided<R: Threads + Wait + Sync>(
    rt: &R,
    alloc: Global,
    files: &mut Vec<File>,
    rest: &str,
    out: &mut Vec<u8>,
) -> anyhow::Result<()> {
    let (name, words) = rest.split_once(' ').context("no name")?;
    let ended = run_on(rt, alloc, words, files, NO_FAULTS)?;
    let verdict = verdict_line(&ended.written);
    let status = ended.status;
    let is_undecided = match status {
        11 => verdict.starts_with(b"verdict bounded "),
        30 => verdict.starts_with(b"verdict unknown entries "),
        _ => false,
    };
    let line = format!(in alloc; "undecided {is_undecided}\n")?;
    out.extend_from_slice(line.as_bytes())?;
    files.push(File::new(alloc, name, &ended.written)?)?;
    Ok(())
}

/// The file that a heading asks to keep, if it asks for one.
fn file_of(alloc: Global, way: &str, rest: &str, body: &str) -> anyhow::Result<Option<File>> {
    match way {
        "file" => Ok(Some(File::new(alloc, rest, body.as_bytes())?)),
        "bytes" => {
            let mut bytes = Vec::new(alloc);
            for number in body.split_whitespace() {
                bytes.push(number.parse::<u8>()?)?;
            }
            Ok(Some(File::new(alloc, rest, &bytes)?))
        },
        "grown" => {
            let (count, rest) = numbered(rest)?;
            let (damaged, name) = numbered(rest)?;
            Ok(Some(File::new(alloc, name, &grown(alloc, count, damaged)?)?))
        },
        _ => Ok(None),
    }
}

/// What comes of one run.
fn push_run<R: Threads + Wait + Sync>(
    rt: &R,
    alloc: Global,
    files: &[File],
    words: &str,
    out: &mut Vec<u8>,
) -> anyhow::Result<()> {
    let ended = run_on(rt, alloc, words, files, NO_FAULTS)?;
    push_ended(alloc, &ended, out)?;
    Ok(())
}

/// The status alone of one run.
fn push_run_status<R: Threads + Wait + Sync>(
    rt: &R,
    alloc: Global,
    files: &[File],
    words: &str,
    out: &mut Vec<u8>,
) -> anyhow::Result<()> {
    let ended = run_on(rt, alloc, words, files, NO_FAULTS)?;
    push_status(alloc, ended.status, out)?;
    Ok(())
}

/// Adds what comes of a heading's runs.
fn push_runs<R: Threads + Wait + Sync>(
    rt: &R,
    alloc: Global,
    files: &mut Vec<File>,
    way: &str,
    rest: &str,
    out: &mut Vec<u8>,
) -> anyhow::Result<()> {
    match way {
        "run" => push_run(rt, alloc, files, rest, out),
        "status" => push_run_status(rt, alloc, files, rest, out),
        "show" => push_shown(alloc, files, rest, out),
        "frame" => push_frame(alloc, files, rest, out),
        "shelf" | "sink" => push_failing(rt, alloc, files, way, rest, out),
        "sinks" => push_sink_faults(rt, alloc, files, rest, out),
        "unended" | "zeroed" => push_cut(rt, alloc, files, way, rest, out),
        "padded" => push_padded(rt, alloc, files, rest, out),
        "fronts" => push_fronts(rt, alloc, files, rest, out),
        "keep" => push_kept(rt, alloc, files, rest, out),
        "undecided" => push_undecided(rt, alloc, files, rest, out),
        "outline" => push_outline(rt, alloc, files, rest, out),
        "held" => push_held(rt, alloc, files, rest, out),
        "met" => push_met(rt, alloc, files, rest, out),
        "shared" => push_shared(rt, alloc, files, rest, out),
        _ => bail!("no such way"),
    }
}

/// Keeps a file, or adds a heading and what comes of its runs.
fn push_row<R: Threads + Wait + Sync>(
    rt: &R,
    alloc: Global,
    files: &mut Vec<File>,
    heading: &str,
    body: &str,
    out: &mut Vec<u8>,
) -> anyhow::Result<()> {
    let (way, rest) = heading.split_once(' ').context("no way")?;
    if let Some(file) = file_of(alloc, way, rest, body)? {
        files.push(file)?;
        return Ok(());
    }
    let line = format!(in alloc; "{HEADING}{heading}\n")?;
    out.extend_from_slice(line.as_bytes())?;
    push_runs(rt, alloc, files, way, rest, out)
}

fn main(rt: HostRuntime) -> anyhow::Result<()> {
    let alloc = rt.alloc();
    let text = io::read_to_string(alloc, rt.stdin().lock())?;
    let mut files = Vec::new(alloc);
    let mut out = Vec::new(alloc);
    for section in text.split(HEADING) {
        if let Some((heading, body)) = section.split_once('\n') {
            push_row(&rt, alloc, &mut files, heading, body, &mut out)?;
        }
    }
    rt.stdout().write_all(&out)?;
    Ok(())
}
