ghost use Rattle.std.specs.Prelude.{◌≡◌, ℕ, ◌+◌, ◌^◌, ◌<◌};
ghost use Rattle.size_board.specs.States.{after_event, changed, is_at, event_claim};

use letters_and_lassos::Side;

/// A size of a side, as a worker claims it.
#[derive(Clone, Copy, Debug, PartialEq, Eq)]
pub struct Claim {
    pub side: Side,
    pub size: u32,
}

/// What happened to a size.
#[derive(Clone, Copy, Debug, PartialEq, Eq)]
pub enum Event {
    /// The worker with this number claimed it.
    Claimed(u32, Claim),
    /// A worker that had claimed it left it.
    Left(Claim),
    /// An accepted machine of this size was found.
    Found(Claim),
    /// It was shown that no machine of this size is accepted.
    Refuted(Claim),
    /// Its log is full.
    Full(Claim),
}

/// What a board knows of a size.
#[derive(Clone, Copy, Debug, PartialEq, Eq)]
pub struct SizeState {
    /// How many claims of it stand.
    pub claims: u64,
    pub is_found: bool,
    pub is_refuted: bool,
    pub is_full: bool,
}

impl Event {
    /// The size that it concerns.
    fn place(self) -> Claim
        ensures { result ≡ event_claim self }
    {
        match self {
            Event::Claimed(_, at) => at,
            Event::Left(at) => at,
            Event::Found(at) => at,
            Event::Refuted(at) => at,
            Event::Full(at) => at,
        }
    }
}

impl SizeState {
    /// The state after an event that concerns its size.
    fn changed(self, event: Event) -> SizeState
        requires { self.claims + 1 < 2 ^ 64 }
        ensures { result ≡ changed self event }
    {
        let mut state = self;
        match event {
            Event::Claimed(..) => state.claims += 1,
            Event::Left(_) => state.claims = state.claims.saturating_sub(1),
            Event::Found(_) => state.is_found = true,
            Event::Refuted(_) => state.is_refuted = true,
            Event::Full(_) => state.is_full = true,
        }
        state
    }

    /// The state of a side's size after any event.
    pub(crate) fn after(self, side: Side, size: u32, event: Event) -> SizeState
        requires { self.claims + 1 < 2 ^ 64 }
        ensures { result ≡ after_event side size self event }
    {
        let place = event.place();
        if place.side == side && place.size == size {
            self.changed(event)
        } else {
            self
        }
    }
}
