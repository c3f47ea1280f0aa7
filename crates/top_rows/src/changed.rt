//! Runs over a file that is changed.

use crate::runs::{File, NO_FAULTS, run_on};
use crate::told::{bytes_of, numbered, push_ended};
use anyhow::Context;
use std::alloc::Global;
use std::sync::Wait;
use std::thread::Threads;

/// What comes of a run with other bytes in place of a file.
fn push_changed<R: Threads + Wait + Sync>(
    rt: &R,
    alloc: Global,
    files: &mut Vec<File>,
    name: &str,
    bytes: &[u8],
    words: &str,
    out: &mut Vec<u8>,
) -> anyhow::Result<()> {
    files.push(File::new(alloc, name, bytes)?)?;
    let ended = run_on(rt, alloc, words, files, NO_FAULTS)?;
    let _changed = files.pop();
    push_ended(alloc, &ended, out)?;
    Ok(())
}

/// What comes of a run with each front of whole lines of a file.
pub(crate) fn push_fronts<R: Threads + Wait + Sync>(
    rt: &R,
    alloc: Global,
    files: &mut Vec<File>,
    rest: &str,
    out: &mut Vec<u8>,
) -> anyhow::Result<()> {
    let (name, words) = rest.split_once(' ').context("no name")?;
    let whole = bytes_of(alloc, files, name)?;
    let mut front = Vec::new(alloc);
    for line in whole.split_inclusive(|byte| *byte == b'\n') {
        push_changed(rt, alloc, files, name, &front, words, out)?;
        front.extend_from_slice(line)?;
    }
    Ok(())
}

/// What comes of a run with a file without its last byte, or with a zero byte in place of its first one.
pub fn push_cut<R: Threads + Wait + Sync>(
    rt: &R,
    alloc: Global,
    files: &mut Vec<File>,
    way: &str,
    rest: &str,
    out: &mut Vec<u8>,
) -> anyhow::Result<()> {
    let (name, words) = rest.split_once(' ').context("no name")?;
    let mut bytes = bytes_of(alloc, files, name)?;
    if way == "unended" {
        let _last = bytes.pop();
    } else if let Some(first) = bytes.first_mut() {
        *first = 0;
    }
    push_changed(rt, alloc, files, name, &bytes, words, out)
}

/// What comes of a run with a file that has blanks at its end, up to so many bytes.
pub(crate) fn push_padded<R: Threads + Wait + Sync>(
    rt: &R,
    alloc: Global,
    files: &mut Vec<File>,
    rest: &str,
    out: &mut Vec<u8>,
) -> anyhow::Result<()> {
    let (length, rest) = numbered(rest)?;
    let (name, words) = rest.split_once(' ').context("no name")?;
    let mut bytes = bytes_of(alloc, files, name)?;
    bytes.resize(length as usize, b' ')?;
    push_changed(rt, alloc, files, name, &bytes, words, out)
}
