ghost use Rattle.std.specs.Prelude.{◌≡◌, Some, []};

use crate::{Sink, SinkFault};
use std::alloc::Global;
use std::marker::Model;

/// Bytes in memory, where writing never fails. A contract sees the list of them.
#[derive(Debug, Drop)]
pub struct PlainSink {
    bytes: Vec<u8>,
}

impl Model for PlainSink {
    ghost use Rattle.std.specs.Prelude.{ℕ, List};

    ghost Value = { List ℕ };

    ghost view = { λ sink. sink.bytes.items };
}

impl PlainSink {
    pub fn new(alloc: Global) -> PlainSink
        ensures start { result ≡ [] }
    {
        PlainSink {
            bytes: Vec::new(alloc),
        }
    }

    /// The bytes so far.
    pub fn bytes(&self) -> &[u8]
        ensures bytes { result.now ≡ self.now }
    {
        &self.bytes
    }
}

impl Sink for PlainSink {
    ghost written = { λ sink. Some sink };

    ghost faults = { λ _. 0 };

    fn put(&mut self, bytes: &[u8]) -> Result<(), SinkFault> {
        self.bytes.extend_from_slice(bytes)?;
        Ok(())
    }
}
