//! Rounds of both sides, on two threads where there are two workers.

use game_arena::Arena;
use safety_game::{Budget, Rounds, Win};
use std::alloc::{AllocError, Global};
use std::sync::atomic::{AtomicBool, Ordering};
use std::thread::{self, Threads};
use time_limits::Deadline;

/// The first game of each side may take so many steps, or an eighth of the budget where that is less, so that each game has its turn.
/// From round to round there are four times as many.
const FIRST_SLICE: u64 = 50_000;

/// The games of both sides, as far as they have come. A side without an arena has none.
#[derive(Drop)]
pub(crate) struct Sides<'a> {
    system: Option<Rounds<'a>>,
    environment: Option<Rounds<'a>>,
}

impl<'a> Sides<'a> {
    pub(crate) fn new(
        alloc: Global,
        system: Option<&'a Arena>,
        environment: Option<&'a Arena>,
    ) -> Result<Sides<'a>, AllocError> {
        Ok(Sides {
            system: rounds_on(alloc, system)?,
            environment: rounds_on(alloc, environment)?,
        })
    }

    /// Plays rounds until a side wins, no game is left that could be won, or the budget is used up, or the time. In a round each side may take
    /// an equal part of the steps that are left before it, so that how many workers there are changes nothing.
    pub(crate) fn first_win<R: Threads, D: Deadline + Sync>(
        &mut self,
        rt: &R,
        workers: u32,
        left: &mut Budget,
        deadline: &D,
    ) -> Result<Option<Win<'a>>, AllocError> {
        let mut slice = FIRST_SLICE.min(left.steps / 8);
        for _ in 0..64 {
            if self.are_over() || left.steps == 0 || deadline.is_over() {
                break;
            }
            let before = self.used();
            let share = self.share(*left);
            let won = self.round(rt, workers, share, slice, deadline)?;
            left.steps = left
                .steps
                .saturating_sub(self.used().saturating_sub(before));
            if won.is_some() {
                return Ok(won);
            }
            slice = slice.saturating_mul(4);
        }
        Ok(None)
    }

    /// Whether no game is left that could be won.
    pub(crate) fn are_over(&self) -> bool {
        !is_playing(&self.system) && !is_playing(&self.environment)
    }

    /// What each side may take in a round of what is left.
    fn share(&self, left: Budget) -> Budget {
        if is_playing(&self.system) && is_playing(&self.environment) {
            let steps = left.steps.saturating_sub(left.steps / 2);
            return Budget { steps, ..left };
        }
        left
    }

    /// The steps that all games took.
    fn used(&self) -> u64 {
        used_by(&self.system).saturating_add(used_by(&self.environment))
    }

    /// A round of each side that plays, with so many steps for each.
    fn round<R: Threads, D: Deadline + Sync>(
        &mut self,
        rt: &R,
        workers: u32,
        share: Budget,
        slice: u64,
        deadline: &D,
    ) -> Result<Option<Win<'a>>, AllocError> {
        let Some(system) = &mut self.system else {
            return play_alone(&mut self.environment, share, slice, deadline);
        };
        let Some(environment) = &mut self.environment else {
            return system.play(share, slice, &AtomicBool::new(false), deadline);
        };
        play_both(rt, workers, system, environment, share, slice, deadline)
    }
}

fn rounds_on<'a>(
    alloc: Global,
    arena: Option<&'a Arena>,
) -> Result<Option<Rounds<'a>>, AllocError> {
    match arena {
        Some(arena) => Ok(Some(Rounds::new(alloc, arena)?)),
        None => Ok(None),
    }
}

fn is_playing(rounds: &Option<Rounds<'_>>) -> bool {
    match rounds {
        Some(rounds) => !rounds.are_over(),
        None => false,
    }
}

fn used_by(rounds: &Option<Rounds<'_>>) -> u64 {
    match rounds {
        Some(rounds) => rounds.used(),
        None => 0,
    }
}

fn play_alone<'a, D: Deadline>(
    rounds: &mut Option<Rounds<'a>>,
    share: Budget,
    slice: u64,
    deadline: &D,
) -> Result<Option<Win<'a>>, AllocError> {
    match rounds {
        Some(rounds) => rounds.play(share, slice, &AtomicBool::new(false), deadline),
        None => Ok(None),
    }
}

/// A round of both sides. What comes of the system's counts first, so that where it wins the environment's games aren't played on; they
/// never end the system's, which would make the round depend on who is faster.
fn play_both<'a, R: Threads, D: Deadline + Sync>(
    rt: &R,
    workers: u32,
    system: &mut Rounds<'a>,
    environment: &mut Rounds<'a>,
    share: Budget,
    slice: u64,
    deadline: &D,
) -> Result<Option<Win<'a>>, AllocError> {
    let is_decided = AtomicBool::new(false);
    if workers < 2 {
        let first = play_first(system, share, slice, &is_decided, deadline)?;
        return match first {
            Some(win) => Ok(Some(win)),
            None => environment.play(share, slice, &is_decided, deadline),
        };
    }
    let (second, first) = thread::join(
        rt,
        || environment.play(share, slice, &is_decided, deadline),
        || play_first(system, share, slice, &is_decided, deadline),
    );
    match first? {
        Some(win) => Ok(Some(win)),
        None => second,
    }
}

/// A round of the side that counts first, and says whether it decided the round.
fn play_first<'a, D: Deadline>(
    rounds: &mut Rounds<'a>,
    share: Budget,
    slice: u64,
    is_decided: &AtomicBool,
    deadline: &D,
) -> Result<Option<Win<'a>>, AllocError> {
    let outcome = rounds.play(share, slice, &AtomicBool::new(false), deadline);
    if !matches!(outcome, Ok(None)) {
        is_decided.store(true, Ordering::SeqCst);
    }
    outcome
}
