ghost use Rattle.std.specs.Prelude.{◌≡◌, ◌<◌, ◌≤◌, ℕ, false, List, [], ◌∷◌, ◌++◌, All, Contains, IfSome, IfNone, OnOk, OnErr, length, slice_index_or};
ghost use Rattle.conflict_learn.specs.Places.{Gains, places_of};

use std::alloc::{AllocError, Global};
use std::marker::Model;

/// Places of a trail, of which the last one is taken first. Seen by contracts as their list.
#[derive(Debug, Drop)]
pub struct Places {
    // Whether a place is one of them; none past the end is.
    flags: Vec<bool>,
}

impl Model for Places {
    ghost use Rattle.std.specs.Prelude.{ℕ, List};
    ghost use Rattle.conflict_learn.specs.Places.{places_of};

    ghost Value = { List ℕ };

    ghost view = { λ p. places_of p.flags.items };
}

/// Makes the flags so many that a place has one.
fn reach(flags: &mut Vec<bool>, place: usize) -> Result<(), AllocError>
    ensures same { OnOk result ((q : ℕ) → slice_index_or flags.new.items q false ≡ slice_index_or flags.old.items q false) }
    ensures within { OnOk result (place < length flags.new.items) }
    ensures err { OnErr result (flags.new.items ≡ flags.old.items) }
{
    if place < flags.len() {
        return Ok(());
    }
    flags.resize(place.saturating_add(1), false)
}

/// The place of the last flag that is set.
fn last_set(flags: &[bool]) -> Option<usize>
    ensures some { IfSome result (λ place. Contains (places_of flags.now) place × All (λ q. q ≤ place) (places_of flags.now)) }
    ensures none { IfNone result (places_of flags.now ≡ []) }
{
    let mut end = flags.len();
    while end > 0 {
        end -= 1;
        if flags[end] {
            return Some(end);
        }
    }
    None
}

impl Places {
    /// No places.
    pub fn new(alloc: Global) -> Places
        ensures { result ≡ [] }
    {
        Places {
            flags: Vec::new(alloc),
        }
    }

    /// Adds a place. Takes memory in proportion to it.
    pub fn add(&mut self, place: usize) -> Result<(), AllocError>
        ensures ok { OnOk result (Gains self.old self.new place) }
        ensures err { OnErr result (self.new ≡ self.old) }
    {
        reach(&mut self.flags, place)?;
        self.flags[place] = true;
        Ok(())
    }

    /// Whether a place is among them.
    pub fn contains(&self, place: usize) -> bool {
        self.flags.get(place).copied().unwrap_or(false)
    }

    /// A number that all places are below.
    pub fn end(&self) -> usize {
        self.flags.len()
    }

    /// Takes the last place.
    pub(crate) fn take_last(&mut self) -> Option<usize>
        ensures some { IfSome result (λ place. (self.old ≡ self.new ++ place ∷ []) × All (λ q. q < place) self.new) }
        ensures none { IfNone result (self.old ≡ []) }
    {
        let place = self.last()?;
        self.flags.truncate(place);
        Some(place)
    }

    /// The last place.
    pub fn last(&self) -> Option<usize>
        ensures some { IfSome result (λ place. Contains self.now place × All (λ q. q ≤ place) self.now) }
        ensures none { IfNone result (self.now ≡ []) }
    {
        last_set(&self.flags)
    }
}
