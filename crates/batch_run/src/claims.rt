//! Which places were claimed.
ghost use Rattle.std.specs.Prelude.{◌≡◌, ◌<◌, ◌∷◌, ◌++◌, [], IfSome, IfNone};

use std::marker::{Brand, Model, PhantomData};

/// How many places there are: for contracts alone it names the number that all claims of one row of tasks are about.
pub trait PlaceCount {
    ghost use Rattle.std.specs.Prelude.{ℕ};

    ghost places: { ℕ };
}

impl PlaceCount for Brand {
    ghost places = { 0 };
}

/// The places of a row of tasks, which workers claim in order under a lock. Contracts see the list of the claimed places and that of the
/// places not yet claimed: together they are all places, each once.
#[derive(Drop)]
pub struct Claims<N: PlaceCount> {
    next: u32,
    count: u32,
    of: PhantomData<N>,
}

impl<N: PlaceCount> Model for Claims<N> {
    ghost use Rattle.std.specs.Prelude.{◌≡◌, ◌≤◌};
    ghost use Rattle.batch_run.specs.Claims.{AreAllPlaces, ClaimsModel, split_at};

    ghost Value = { ClaimsModel };

    ghost view = { λ c. split_at c.next c.count };

    ghost invariant = { λ c. (c.next ≤ c.count) × (c.count ≡ N.places) × AreAllPlaces N.places (split_at c.next c.count) };
}

impl<N: PlaceCount> Claims<N> {
    ghost use Rattle.batch_run.specs.Claims.{AreAllPlaces, places_below};

    /// All places, none of them claimed.
    pub fn new(count: u32) -> Claims<N>
        requires { count ≡ N.places }
        ensures claimed { result.claimed ≡ [] }
        ensures unclaimed { result.unclaimed ≡ places_below N.places }
        ensures all { AreAllPlaces N.places result }
    {
        Claims {
            next: 0,
            count,
            of: PhantomData,
        }
    }

    /// Claims the first place that isn't claimed yet, where there is one.
    pub fn claim(&mut self) -> Option<u32>
        ensures some { IfSome result (λ place. self.old.unclaimed ≡ place ∷ self.new.unclaimed) }
        ensures claimed { IfSome result (λ place. self.new.claimed ≡ self.old.claimed ++ place ∷ []) }
        ensures within { IfSome result (λ place. place < N.places) }
        ensures none { IfNone result ((self.old.unclaimed ≡ []) × (self.new ≡ self.old)) }
        ensures all { AreAllPlaces N.places self.new }
    {
        if self.next == self.count {
            return None;
        }
        let place = self.next;
        self.next += 1;
        Some(place)
    }
}
