//! What is told of a run, and what rows are made of.

use crate::runs::{Ended, File};
use anyhow::Context;
use std::alloc::{AllocError, Global};

/// A number, and what stands behind it.
pub fn numbered(text: &str) -> anyhow::Result<(u64, &str)> {
    let (number, rest) = text.split_once(' ').context("no number")?;
    Ok((number.parse::<u64>()?, rest))
}

/// The status of a run.
pub(crate) fn push_status(alloc: Global, status: u8, out: &mut Vec<u8>) -> Result<(), AllocError> {
    let line = format!(in alloc; "status {status}\n")?;
    out.extend_from_slice(line.as_bytes())
}

/// The status of a run, and what was written.
pub(crate) fn push_ended(
    alloc: Global,
    ended: &Ended,
    out: &mut Vec<u8>,
) -> Result<(), AllocError> {
    push_status(alloc, ended.status, out)?;
    out.extend_from_slice(&ended.written)
}

/// The line of a verdict, if one was written.
pub fn verdict_line(written: &[u8]) -> &[u8] {
    let mut found: &[u8] = b"no verdict\n";
    for line in written.split_inclusive(|byte| *byte == b'\n') {
        if line.starts_with(b"verdict ") {
            found = line;
        }
    }
    found
}

/// The bytes of the last file of this name.
pub fn bytes_of(alloc: Global, files: &[File], name: &str) -> Result<Vec<u8>, AllocError> {
    let mut found = Vec::new(alloc);
    for file in files {
        if file.has_name(name) {
            found.clear();
            found.extend_from_slice(file.bytes())?;
        }
    }
    Ok(found)
}
