//! Runs whose workers pass a gate that holds them back.

use crate::runs::{Ended, File, NO_FAULTS, run_through};
use crate::told::{numbered, push_ended, push_status, verdict_line};
use input_output::{Gate, HoldGate, Moment, ShareGate};
use std::alloc::{AllocError, Global};
use std::sync::Wait;
use std::thread::Threads;

/// The gates of all rows in one type, since the whole program is checked anew for each type of gate.
#[derive(Drop)]
pub enum RowGate {
    Open,
    Hold(HoldGate),
    Share(ShareGate),
}

impl RowGate {
    /// Whether the workers met that it holds back.
    fn met(&self) -> bool {
        match self {
            RowGate::Open => false,
            RowGate::Hold(gate) => gate.met(),
            RowGate::Share(gate) => gate.met(),
        }
    }
}

impl Gate for RowGate {
    fn pass(&self, worker: u32, log: u32, moment: Moment) {
        match self {
            RowGate::Open => {},
            RowGate::Hold(gate) => gate.pass(worker, log, moment),
            RowGate::Share(gate) => gate.pass(worker, log, moment),
        }
    }
}

/// A run whose workers pass this gate, and whether those met that it holds back.
fn run_gated<R: Threads + Wait + Sync>(
    rt: &R,
    alloc: Global,
    words: &str,
    files: &[File],
    gate: RowGate,
) -> Result<(Ended, bool), AllocError> {
    let ended = run_through(rt, alloc, words, files, NO_FAULTS, &gate)?;
    Ok((ended, gate.met()))
}

/// The verdict of a run whose workers pass a gate that holds one of them back, and whether they met there.
pub(crate) fn push_met<R: Threads + Wait + Sync>(
    rt: &R,
    alloc: Global,
    files: &[File],
    words: &str,
    out: &mut Vec<u8>,
) -> anyhow::Result<()> {
    let gate = RowGate::Hold(HoldGate::new());
    let (ended, met) = run_gated(rt, alloc, words, files, gate)?;
    push_status(alloc, ended.status, out)?;
    out.extend_from_slice(verdict_line(&ended.written))?;
    let line = format!(in alloc; "met {met}\n")?;
    out.extend_from_slice(line.as_bytes())?;
    Ok(())
}

/// What comes of a run whose workers pass a gate that holds one of them back.
pub(crate) fn push_held<R: Threads + Wait + Sync>(
    rt: &R,
    alloc: Global,
    files: &[File],
    words: &str,
    out: &mut Vec<u8>,
) -> anyhow::Result<()> {
    let gate = RowGate::Hold(HoldGate::new());
    let (ended, met) = run_gated(rt, alloc, words, files, gate)?;
    push_ended(alloc, &ended, out)?;
    let line = format!(in alloc; "met {met}\n")?;
    out.extend_from_slice(line.as_bytes())?;
    Ok(())
}

/// Whether the entries of the first log that is written have two workers at least, the caller apart, whose number is 0.
fn is_shared(written: &[u8]) -> bool {
    let mut is_in_log = false;
    let mut first: Option<&[u8]> = None;
    for line in written.split(|byte| *byte == b'\n') {
        if line.starts_with(b"log ") || line == b"end".as_slice() {
            if is_in_log {
                return false;
            }
            is_in_log = true;
        } else if is_in_log && !line.starts_with(b"0 ") {
            let by = line.split(|byte| *byte == b' ').next();
            if first.is_some() && by != first {
                return true;
            }
            first = by;
        }
    }
    false
}

/// The verdict of a run whose workers pass a gate on one log, with whether its entries are of two workers.
pub(crate) fn push_shared<R: Threads + Wait + Sync>(
    rt: &R,
    alloc: Global,
    files: &[File],
    rest: &str,
    out: &mut Vec<u8>,
) -> anyhow::Result<()> {
    let (log, words) = numbered(rest)?;
    let gate = RowGate::Share(ShareGate::new(u32::try_from(log)?));
    let (ended, met) = run_gated(rt, alloc, words, files, gate)?;
    push_sharing(alloc, &ended, met, out)?;
    Ok(())
}

/// The verdict, whether entries are of two workers, and whether those met.
fn push_sharing(
    alloc: Global,
    ended: &Ended,
    met: bool,
    out: &mut Vec<u8>,
) -> Result<(), AllocError> {
    push_status(alloc, ended.status, out)?;
    out.extend_from_slice(verdict_line(&ended.written))?;
    let shared = is_shared(&ended.written);
    let line = format!(in alloc; "shared {shared}, met {met}\n")?;
    out.extend_from_slice(line.as_bytes())
}
