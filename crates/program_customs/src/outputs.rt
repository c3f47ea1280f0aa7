//! Where what a program prints goes.
ghost use Rattle.std.specs.Prelude.{◌≡◌, None};

use crate::targets::Target;
use input_output::{Sink, SinkFault};
use std::alloc::Global;
use std::io::{self, Error};
use std::marker::Model;
use std::rt::Files;

/// The statuses of answers, for which a file is kept.
const ANSWERS: [u8; 6] = [0, 10, 11, 20, 30, 40];

/// Standard output, or the file that `-o` names in its place. What it was given isn't told. A contract sees how often writing has failed.
#[derive(Drop)]
pub struct ProgramOutput<'a, R: Files + Print> {
    rt: &'a R,
    target: Option<Target<R::File>>,
    faults: u64,
    last_error: Option<Error>,
}

impl<'a, R: Files + Print> Model for ProgramOutput<'a, R> {
    ghost use Rattle.std.specs.Prelude.{ℕ};

    ghost Value = { ℕ };

    ghost view = { λ output. output.faults };
}

impl<'a, R: Files + Print + AllocGlobal> ProgramOutput<'a, R> {
    /// Opens the file, where one is named.
    pub fn open(rt: &'a R, alloc: Global, name: Option<&str>) -> io::Result<ProgramOutput<'a, R>> {
        let target = match name {
            Some(name) => Some(Target::open(rt, alloc, name)?),
            None => None,
        };
        Ok(ProgramOutput {
            rt,
            target,
            faults: 0,
            last_error: None,
        })
    }

    /// Why the last write that failed did so, as the system says it.
    pub fn last_error(&self) -> Option<Error> {
        self.last_error
    }

    /// Ends what is written, by the program's status: with that of an answer the file gets its name, else none is left.
    pub fn end(&mut self, status: u8) -> io::Result<()> {
        let is_wanted = ANSWERS.contains(&status);
        match self.target.take() {
            Some(target) => target.end(self.rt, is_wanted),
            None => Ok(()),
        }
    }
}

impl<'a, R: Files + Print> Sink for ProgramOutput<'a, R> {
    ghost written = { λ _. None };

    ghost faults = { λ output. output };

    fn put(&mut self, bytes: &[u8]) -> Result<(), SinkFault> {
        let outcome = match &mut self.target {
            Some(target) => target.write(bytes),
            None => self.rt.write_all(bytes),
        };
        let Err(error) = outcome else {
            return Ok(());
        };
        self.faults = self.faults.saturating_add(1);
        self.last_error = Some(error);
        Err(SinkFault::Failed)
    }
}
