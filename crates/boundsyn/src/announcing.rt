//! Who hears what is told of answers, and says at once that something is found.

use diagnostics::{KeptTold, Phase, found_line, phase_line};
use letters_and_lassos::Side;
use outcome_news::{Listener, News};
use std::alloc::Global;
use std::io;

/// Writes to standard error that something is found, and keeps what is told of the answers.
#[derive(Drop)]
pub struct Announcer<'a, 'b, R: Eprint> {
    pub rt: &'a R,
    pub alloc: Global,
    /// The name of the text, where something is to be said of it.
    pub name: Option<&'b str>,
    pub kept: KeptTold,
    /// Whether a line was written.
    pub is_announced: bool,
    /// Whether phases are told of, too.
    pub tells_phases: bool,
}

impl<'a, 'b, R: Eprint> Announcer<'a, 'b, R> {
    /// Where there is no name nothing is written.
    pub fn new(
        rt: &'a R,
        alloc: Global,
        name: Option<&'b str>,
        tells_phases: bool,
    ) -> Announcer<'a, 'b, R> {
        Announcer {
            rt,
            alloc,
            name,
            kept: KeptTold::new(alloc),
            is_announced: false,
            tells_phases,
        }
    }

    /// Writes that a phase begins, where that is wanted.
    fn begin(&self, phase: Phase) -> io::Result<()> {
        match self.name {
            Some(name) if self.tells_phases => {
                let line = phase_line(self.alloc, name, phase)?;
                self.rt.eprint(line.as_str())
            },
            _ => Ok(()),
        }
    }

    /// Writes that a strategy is found, and gives whether there was something to say.
    fn announce(&self, side: Side, states: u32) -> io::Result<bool> {
        let Some(name) = self.name else {
            return Ok(false);
        };
        let line = found_line(self.alloc, name, side, states)?;
        if line.is_empty() {
            return Ok(false);
        }
        self.rt.eprint(line.as_str())?;
        Ok(true)
    }
}

impl<'a, 'b, R: Eprint> Listener for Announcer<'a, 'b, R> {
    fn hear(&mut self, news: News) {
        match news {
            News::Playing => {
                let _ = self.begin(Phase::Playing);
            },
            News::Searching => {
                let _ = self.begin(Phase::Searching);
            },
            News::Found(side, states) => {
                self.is_announced = self.announce(side, states).unwrap_or(false);
            },
            News::Answered(told) => self.kept.keep(told),
        }
    }
}
