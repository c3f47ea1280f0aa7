ghost use Rattle.std.specs.Prelude.{◌≡◌, ◌≤◌, Some, OnOk, IsErrOf};
ghost use Rattle.input_output.specs.Faults.{Rose};
ghost use Rattle.input_output.specs.Bytes.{Gains, GainsFront};

use crate::{Sink, SinkFault};
use std::alloc::Global;
use std::marker::Model;

/// Bytes in memory, where writing fails at stated calls, and then takes nothing.
#[derive(Debug, Drop)]
pub struct MemorySink {
    bytes: Vec<u8>,
    failing: Vec<u64>,
    calls: u64,
    faults: u64,
}

impl Model for MemorySink {
    ghost use Rattle.input_output.specs.Memory.{SinkState};

    ghost Value = { SinkState };

    ghost view = { λ sink. record { bytes = sink.bytes.items; failing = sink.failing.items; calls = sink.calls; faults = sink.faults } };
}

impl MemorySink {
    ghost use Rattle.std.specs.Prelude.{[]};

    /// The calls whose numbers, from 1, are in `failing` fail.
    pub fn new(alloc: Global, failing: Vec<u64>) -> MemorySink
        ensures start { result ≡ record { bytes = []; failing = failing.items; calls = 0; faults = 0 } }
    {
        MemorySink {
            bytes: Vec::new(alloc),
            failing,
            calls: 0,
            faults: 0,
        }
    }

    /// The bytes so far.
    pub fn bytes(&self) -> &[u8]
        ensures bytes { result.now ≡ self.now.bytes }
    {
        &self.bytes
    }
}

impl Sink for MemorySink {
    ghost use Rattle.input_output.specs.Memory.{AnswersPut};

    ghost written = { λ sink. Some sink.bytes };

    ghost faults = { λ sink. sink.faults };

    fn put(&mut self, bytes: &[u8]) -> Result<(), SinkFault>
        ensures exact { AnswersPut self.old bytes.now result self.new }
        ensures ok { OnOk result (Gains (Some self.old.bytes) (Some self.new.bytes) bytes.now) }
        ensures front { IsErrOf result SinkFault.Failed
            → GainsFront (Some self.old.bytes) (Some self.new.bytes) bytes.now }
        ensures no_memory { IsErrOf result SinkFault.NoMemory → Some self.new.bytes ≡ Some self.old.bytes }
        ensures failed { IsErrOf result SinkFault.Failed → Rose self.old.faults self.new.faults }
        ensures not_failed { ¬ IsErrOf result SinkFault.Failed → self.new.faults ≡ self.old.faults }
        ensures never_falls { self.old.faults ≤ self.new.faults }
    {
        let calls = self.calls.saturating_add(1);
        if self.failing.contains(&calls) {
            self.calls = calls;
            self.faults = self.faults.saturating_add(1);
            return Err(SinkFault::Failed);
        }
        self.bytes.extend_from_slice(bytes)?;
        self.calls = calls;
        Ok(())
    }
}
