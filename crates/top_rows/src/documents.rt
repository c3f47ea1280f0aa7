//! Documents within what is written.

use crate::runs::{File, NO_FAULTS, run_on};
use crate::told::{bytes_of, push_status};
use anyhow::Context;
use std::alloc::{AllocError, Global};
use std::sync::Wait;
use std::thread::Threads;

/// Keeps the documents within what is written as files of this name and their numbers from 1, and tells what stands around them.
pub(crate) fn push_outline<R: Threads + Wait + Sync>(
    rt: &R,
    alloc: Global,
    files: &mut Vec<File>,
    rest: &str,
    out: &mut Vec<u8>,
) -> anyhow::Result<()> {
    let (name, words) = rest.split_once(' ').context("no name")?;
    let ended = run_on(rt, alloc, words, files, NO_FAULTS)?;
    push_status(alloc, ended.status, out)?;
    let mut documents = Documents::new(alloc);
    for line in ended.written.split_inclusive(|byte| *byte == b'\n') {
        documents.take_line(line, out)?;
    }
    documents.keep(name, files)?;
    Ok(())
}

/// The documents within lines, as far as these are taken.
#[derive(Drop)]
struct Documents {
    alloc: Global,
    whole: Vec<Vec<u8>>,
    // How many lines the last document still wants.
    wanted: u64,
}

impl Documents {
    fn new(alloc: Global) -> Documents {
        Documents {
            alloc,
            whole: Vec::new(alloc),
            wanted: 0,
        }
    }

    /// Takes one more line, which is told if it stands outside of documents.
    fn take_line(&mut self, line: &[u8], out: &mut Vec<u8>) -> anyhow::Result<()> {
        if self.wanted > 0 {
            self.wanted -= 1;
            if let Some(last) = self.whole.last_mut() {
                last.extend_from_slice(line)?;
            }
            return Ok(());
        }
        match document_behind(line) {
            Some((word, wanted)) => {
                self.wanted = wanted;
                self.whole.push(Vec::new(self.alloc))?;
                out.extend_from_slice(word.as_bytes())?;
                out.extend_from_slice(b"\n")?;
            },
            None => out.extend_from_slice(line)?,
        }
        Ok(())
    }

    fn keep(&self, name: &str, files: &mut Vec<File>) -> Result<(), AllocError> {
        for (place, document) in self.whole.iter().enumerate() {
            let name = format!(in self.alloc; "{name}_{}", place + 1)?;
            files.push(File::new(self.alloc, name.as_str(), document)?)?;
        }
        Ok(())
    }
}

/// The word before the number of lines of a document that follows this line, and that number, if one does.
fn document_behind(line: &[u8]) -> Option<(&str, u64)> {
    let text = str::from_utf8(line).ok()?;
    let (word, number) = text.strip_suffix('\n')?.split_once(' ')?;
    if word == "document" || word == "lines" {
        Some((word, number.parse::<u64>().ok()?))
    } else {
        None
    }
}

/// The bytes of a file.
pub fn push_shown(
    alloc: Global,
    files: &[File],
    name: &str,
    out: &mut Vec<u8>,
) -> anyhow::Result<()> {
    let bytes = bytes_of(alloc, files, name)?;
    out.extend_from_slice(&bytes)?;
    Ok(())
}

/// The lines of a file that have a letter, so not those of latches, outputs, gates and entries.
pub(crate) fn push_frame(
    alloc: Global,
    files: &[File],
    name: &str,
    out: &mut Vec<u8>,
) -> anyhow::Result<()> {
    let bytes = bytes_of(alloc, files, name)?;
    for line in bytes.split_inclusive(|byte| *byte == b'\n') {
        if line.iter().any(|byte| byte.is_ascii_alphabetic()) {
            out.extend_from_slice(line)?;
        }
    }
    Ok(())
}
