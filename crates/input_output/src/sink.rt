ghost use Rattle.std.specs.Prelude.{◌≡◌, ℕ, ◌≤◌, List, Option, OnOk, IsErrOf};
ghost use Rattle.input_output.specs.declared.sink.SinkFault.TheVariants.{NoMemory};
ghost use Rattle.input_output.specs.Faults.{Rose};
ghost use Rattle.input_output.specs.Bytes.{Gains, GainsFront};

use std::alloc::AllocError;

/// Why bytes were not written.
#[derive(Clone, Copy, Debug, PartialEq, Eq)]
pub enum SinkFault {
    /// The sink failed. A part of the bytes may have been written.
    Failed,
    NoMemory,
}

impl From<AllocError> for SinkFault {
    ghost from_gives = { λ _ fault. fault ≡ NoMemory };

    fn from(_error: AllocError) -> SinkFault {
        SinkFault::NoMemory
    }
}

/// Where bytes are written, one piece after another.
pub trait Sink {
    /// The bytes so far, where the sink tells them.
    ghost written: { Self → Option (List ℕ) };

    /// How often writing has failed.
    ghost faults: { Self → ℕ };

    /// Writes all the bytes, or fails. A sink that takes nothing more fails.
    fn put(&mut self, bytes: &[u8]) -> Result<(), SinkFault>
        ensures ok { OnOk result (Gains (written self.old) (written self.new) bytes.now) }
        ensures front { IsErrOf result SinkFault.Failed
            → GainsFront (written self.old) (written self.new) bytes.now }
        ensures no_memory { IsErrOf result SinkFault.NoMemory → written self.new ≡ written self.old }

        // A failure raises the count, and nothing else does.
        ensures failed { IsErrOf result SinkFault.Failed → Rose (faults self.old) (faults self.new) }
        ensures not_failed { ¬ IsErrOf result SinkFault.Failed → faults self.new ≡ faults self.old }
        ensures never_falls { faults self.old ≤ faults self.new };
}
