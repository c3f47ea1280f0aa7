//! What bounds a search.
ghost use Rattle.std.specs.Prelude.{◌≡◌, ◌≤◌, IfSome};
ghost use Rattle.text_limits.specs.declared.TheConstants.{SMALL_LIMITS};

use machine_model::Counts;
use std::marker::Model;

/// What bounds a search. Contracts see the record of its four values.
#[derive(Clone, Copy, Debug)]
pub struct Settings {
    max: u32,
    entries: Option<u64>,
    workers: u32,
    counts: Counts,
}

impl Model for Settings {
    ghost use Rattle.synth_engine.specs.Settings.{IsWithinBounds, Settings};

    ghost Value = { Settings };

    ghost view = { λ s. record { max = s.max; entries = s.entries; workers = s.workers; counts = s.counts } };

    ghost invariant = { λ s. IsWithinBounds (record { max = s.max; entries = s.entries; workers = s.workers; counts = s.counts }) };

    ghost inverse = { λ s. record { max = s.max; entries = s.entries; workers = s.workers; counts = s.counts } };
}

impl Settings {
    ghost use Rattle.synth_engine.specs.Settings.{IsWithinBounds, alone};

    /// With these values.
    pub fn new(max: u32, entries: Option<u64>, workers: u32, counts: Counts) -> Settings
        requires some_size { 1 ≤ max }
        requires most_size { max ≤ SMALL_LIMITS.machine }
        requires entries { IfSome entries (λ most. most ≤ 250000) }
        requires workers { workers ≤ 8 }
        ensures { result ≡ record { max = max; entries = entries; workers = workers; counts = counts } }
    {
        Settings {
            max,
            entries,
            workers,
            counts,
        }
    }

    /// The greatest number of states, from 1 to `SMALL_LIMITS.machine`.
    pub fn max(self) -> u32
        ensures value { result ≡ self.max }
        ensures bounds { IsWithinBounds self }
    {
        self.max
    }

    /// The greatest number of entries of each log, at most 250,000. With none there is no limit.
    pub fn entries(self) -> Option<u64>
        ensures value { result ≡ self.entries }
        ensures bounds { IsWithinBounds self }
    {
        self.entries
    }

    /// How many workers run beside the caller, at most 8. With 0 the caller does all of the work.
    pub fn workers(self) -> u32
        ensures value { result ≡ self.workers }
        ensures bounds { IsWithinBounds self }
    {
        self.workers
    }

    /// What annotations count.
    pub fn counts(self) -> Counts
        ensures value { result ≡ self.counts }
        ensures bounds { IsWithinBounds self }
    {
        self.counts
    }

    /// The same without workers beside the caller.
    pub fn alone(self) -> Settings
        ensures { result ≡ alone self }
    {
        Settings { workers: 0, ..self }
    }
}
