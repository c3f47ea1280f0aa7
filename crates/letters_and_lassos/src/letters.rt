ghost use Rattle.std.specs.Prelude.{◌≡◌};
ghost use Rattle.letters_and_lassos.specs.Signals.{has};

/// A set of signals: signal k is in it where bit k is 1. Inputs come first, then outputs.
#[derive(Clone, Copy, Debug, PartialEq, Eq)]
pub struct Letter(pub u64);

impl Letter {
    /// Whether the signal is in the set. A signal of 64 or more never is.
    pub fn has(self, signal: u32) -> bool
        ensures { result ≡ has self.0 signal }
    {
        is_in(self.0, signal)
    }
}

fn is_in(signals: u64, signal: u32) -> bool
    ensures { result ≡ has signals signal }
{
    signal < u64::BITS && (signals >> signal) & 1 == 1
}
