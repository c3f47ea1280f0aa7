//! Runs of the program over files and a sink in memory.

use crate::gates::RowGate;
use boundsyn_top::run;
use input_output::{FileBytes, MemoryShelf, MemorySink};
use names_and_numbers::Name;
use outcome_news::NoListener;
use std::alloc::{AllocError, Global};
use std::sync::Wait;
use std::thread::Threads;
use time_limits::NoStopwatch;

/// A file of the rows.
#[derive(Drop)]
pub struct File {
    name: String,
    bytes: Vec<u8>,
}

impl File {
    pub fn new(alloc: Global, name: &str, bytes: &[u8]) -> Result<File, AllocError> {
        Ok(File {
            name: String::from_str(alloc, name)?,
            bytes: Vec::from_slice(alloc, bytes)?,
        })
    }

    pub(crate) fn has_name(&self, name: &str) -> bool {
        self.name.as_str() == name
    }

    pub fn bytes(&self) -> &[u8] {
        &self.bytes
    }
}

/// Which call of each fails, from 1, if one does.
#[derive(Clone, Copy)]
pub struct Faults {
    pub shelf: Option<u64>,
    pub sink: Option<u64>,
}

/// No call fails.
pub const NO_FAULTS: Faults = Faults {
    shelf: None,
    sink: None,
};

/// What a run left.
#[derive(Drop)]
pub struct Ended {
    pub status: u8,
    pub written: Vec<u8>,
}

/// Runs the program on words, with a blank between them, over the files. Of files of one name the last counts.
pub(crate) fn run_on<R: Threads + Wait + Sync>(
    rt: &R,
    alloc: Global,
    words: &str,
    files: &[File],
    faults: Faults,
) -> Result<Ended, AllocError> {
    run_through(rt, alloc, words, files, faults, &RowGate::Open)
}

/// The same, with a gate that workers pass.
pub(crate) fn run_through<R: Threads + Wait + Sync>(
    rt: &R,
    alloc: Global,
    words: &str,
    files: &[File],
    faults: Faults,
    gate: &RowGate,
) -> Result<Ended, AllocError> {
    let mut shelf = MemoryShelf::new(alloc, held(alloc, files)?, numbers(alloc, faults.shelf)?);
    let mut sink = MemorySink::new(alloc, numbers(alloc, faults.sink)?);
    let words = words_in(alloc, words)?;
    let status = run(
        rt,
        alloc,
        &words,
        &mut shelf,
        &mut sink,
        gate,
        &NoStopwatch,
        &mut NoListener,
    );
    Ok(Ended {
        status,
        written: Vec::from_slice(alloc, sink.bytes())?,
    })
}

/// The files, the last one first.
fn held(alloc: Global, files: &[File]) -> Result<Vec<(Name, FileBytes)>, AllocError> {
    let mut held = Vec::new(alloc);
    for file in files.iter().rev() {
        let name = Name::new(alloc, file.name.as_bytes())?;
        held.push((name, FileBytes::new(alloc, &file.bytes)?))?;
    }
    Ok(held)
}

fn numbers(alloc: Global, number: Option<u64>) -> Result<Vec<u64>, AllocError> {
    let mut numbers = Vec::new(alloc);
    if let Some(number) = number {
        numbers.push(number)?;
    }
    Ok(numbers)
}

/// The program's name and the words.
fn words_in(alloc: Global, text: &str) -> Result<Vec<String>, AllocError> {
    let mut words = Vec::new(alloc);
    words.push(String::from_str(alloc, "boundsyn")?)?;
    for word in text.split(' ') {
        words.push(String::from_str(alloc, word)?)?;
    }
    Ok(words)
}
