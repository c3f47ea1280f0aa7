ghost use Rattle.std.specs.Prelude.{◌≡◌, None};

use crate::{Sink, SinkFault};
use std::io::Error;
use std::marker::Model;

/// Standard output. What it was given isn't told. A contract sees how often writing has failed.
#[derive(Drop)]
pub struct StdSink<'a, R: Print> {
    rt: &'a R,
    faults: u64,
    last_error: Option<Error>,
}

impl<'a, R: Print> Model for StdSink<'a, R> {
    ghost use Rattle.std.specs.Prelude.{ℕ};

    ghost Value = { ℕ };

    ghost view = { λ sink. sink.faults };
}

impl<'a, R: Print> StdSink<'a, R> {
    pub fn new(rt: &'a R) -> StdSink<'a, R>
        ensures start { result ≡ 0 }
    {
        StdSink {
            rt,
            faults: 0,
            last_error: None,
        }
    }

    /// Why the last write that failed did so, as the system says it.
    pub fn last_error(&self) -> Option<Error> {
        self.last_error
    }
}

impl<'a, R: Print> Sink for StdSink<'a, R> {
    ghost written = { λ _. None };

    ghost faults = { λ sink. sink };

    fn put(&mut self, bytes: &[u8]) -> Result<(), SinkFault> {
        let Err(error) = self.rt.write_all(bytes) else {
            return Ok(());
        };
        self.faults = self.faults.saturating_add(1);
        self.last_error = Some(error);
        Err(SinkFault::Failed)
    }
}
