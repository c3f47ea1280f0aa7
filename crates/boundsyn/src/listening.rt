//! A shelf and a sink that hand everything on, and remember what a message may need.

ghost use Rattle.std.specs.Prelude.{◌≡◌};

use diagnostics::{Heard, KeptFiles};
use input_output::{Shelf, ShelfFault, Sink, SinkFault};
use std::sync::atomic::{AtomicU64, Ordering};

/// A shelf that hands on what another one gives, keeps copies, and counts the files.
#[derive(Drop)]
pub struct KeepingShelf<'a, H: Shelf> {
    pub inner: H,
    pub kept: KeptFiles,
    /// How often a file was taken whole.
    pub taken: &'a AtomicU64,
}

impl<'a, H: Shelf> Shelf for KeepingShelf<'a, H> {
    ghost files = { λ shelf. H.files shelf.inner };

    ghost faults = { λ shelf name. H.faults shelf.inner name };

    fn take(&mut self, name: &str, limit: u64, into: &mut Vec<u8>) -> Result<(), ShelfFault> {
        let start = into.len();
        let outcome = self.inner.take(name, limit, into);
        self.taken.fetch_add(1, Ordering::SeqCst);
        let taken = into.get(start..).unwrap_or(b"");
        keep(&mut self.kept, name, outcome, taken);
        outcome
    }

    fn part(
        &mut self,
        name: &str,
        from: u64,
        most: u64,
        into: &mut Vec<u8>,
    ) -> Result<u64, ShelfFault> {
        let start = into.len();
        let outcome = self.inner.part(name, from, most, into);
        let taken = into.get(start..).unwrap_or(b"");
        keep_part(&mut self.kept, name, from, outcome, taken);
        outcome
    }
}

/// Keeps what came of taking a file.
fn keep(kept: &mut KeptFiles, name: &str, outcome: Result<(), ShelfFault>, taken: &[u8]) {
    match outcome {
        Ok(()) => kept.keep(name, taken),
        Err(ShelfFault::TooLong) => kept.keep_name(name),
        Err(ShelfFault::Failed) => kept.keep_failed(name),
        Err(ShelfFault::NoMemory) => {},
    }
}

/// Keeps what came of taking a part of a file from a place on.
fn keep_part(
    kept: &mut KeptFiles,
    name: &str,
    from: u64,
    outcome: Result<u64, ShelfFault>,
    taken: &[u8],
) {
    match outcome {
        Ok(_) => kept.keep_part(name, from, taken),
        Err(ShelfFault::Failed) => kept.keep_failed(name),
        Err(_) => {},
    }
}

/// A sink that hands on what it is given, and hears what was written.
#[derive(Drop)]
pub struct HearingSink<K: Sink> {
    pub inner: K,
    pub heard: Heard,
}

impl<K: Sink> Sink for HearingSink<K> {
    ghost written = { λ sink. K.written sink.inner };

    ghost faults = { λ sink. K.faults sink.inner };

    fn put(&mut self, bytes: &[u8]) -> Result<(), SinkFault> {
        let outcome = self.inner.put(bytes);
        hear(&mut self.heard, outcome, bytes);
        outcome
    }
}

/// Hears bytes, if they were written.
fn hear(heard: &mut Heard, outcome: Result<(), SinkFault>, bytes: &[u8]) {
    if outcome.is_ok() {
        heard.hear(bytes);
    }
}
