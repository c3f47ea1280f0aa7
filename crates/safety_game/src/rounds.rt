//! Rounds of games with rising bounds and growing slices of steps.

use crate::search_state::Search;
use crate::wins::Win;
use game_arena::{Arena, Meter, Stop};
use game_moves::{Game, Positions};
use std::alloc::{AllocError, Global};
use std::sync::atomic::{AtomicBool, Ordering};
use time_limits::Deadline;

/// What games may use.
#[derive(Clone, Copy)]
pub struct Budget {
    /// The steps of all games together.
    pub steps: u64,
    /// The positions and the bytes of each game.
    pub positions: usize,
    pub bytes: usize,
}

/// The greatest numbers of marks that games allow.
const BOUNDS: [u8; 7] = [0, 1, 2, 4, 8, 16, 32];

/// A game by its rules: the bound on the number of marks, its place among the bounds, and whether new positions are widened.
#[derive(Clone, Copy)]
struct Rules {
    bound: u8,
    place: u32,
    is_widened: bool,
    /// Whether the game isn't won with any number of steps.
    is_over: bool,
}

/// The games of one player, which are played again and again with more steps.
#[derive(Drop)]
pub struct Rounds<'a> {
    arena: &'a Arena,
    games: Vec<Rules>,
    used: u64,
    alloc: Global,
}

impl<'a> Rounds<'a> {
    /// For each bound a game with widening and one without.
    pub fn new(alloc: Global, arena: &'a Arena) -> Result<Rounds<'a>, AllocError> {
        let is_over = arena.is_doomed(arena.start);
        let mut games = Vec::new(alloc);
        for (place, bound) in (0u32..7).zip(&BOUNDS) {
            for is_widened in [true, false] {
                games.push(Rules {
                    bound: *bound,
                    place,
                    is_widened,
                    is_over,
                })?;
            }
        }
        Ok(Rounds {
            arena,
            games,
            used: 0,
            alloc,
        })
    }

    /// Whether no game will be won with more steps.
    pub fn are_over(&self) -> bool {
        self.games.iter().all(|game| game.is_over)
    }

    /// The steps that all games took.
    pub fn used(&self) -> u64 {
        self.used
    }

    /// Plays each game that isn't over, up to the first win, with at most the budget's steps for all. A game of the first bound has `slice`
    /// steps, and one of each further bound half as many. Once `is_decided` is set, or the time is over, they end without a win.
    pub fn play<D: Deadline>(
        &mut self,
        budget: Budget,
        slice: u64,
        is_decided: &AtomicBool,
        deadline: &D,
    ) -> Result<Option<Win<'a>>, AllocError> {
        let before = self.used;
        for number in 0..self.games.len() {
            let Some(rules) = self.games.get(number).copied() else {
                break;
            };
            let left = budget
                .steps
                .saturating_sub(self.used.saturating_sub(before));
            if rules.is_over || left == 0 || is_decided.load(Ordering::SeqCst) {
                continue;
            }
            let steps = steps_of(slice, rules.place).min(left);
            let own = Budget { steps, ..budget };
            match self.play_once(rules, own, is_decided, deadline) {
                Ok(Some(win)) => return Ok(Some(win)),
                Ok(None) => self.end_lost(rules.bound),
                Err(Stop::Steps) => {}
                Err(Stop::Positions | Stop::Bytes) => self.end(number),
                Err(Stop::NoMemory) => return Err(AllocError),
            }
        }
        Ok(None)
    }

    /// Where one game of a bound is lost, so are both, and all where nothing is counted.
    fn end_lost(&mut self, bound: u8) {
        let all = !self.arena.has_marks();
        for game in self.games.iter_mut() {
            if all || game.bound == bound {
                game.is_over = true;
            }
        }
    }

    fn end(&mut self, number: usize) {
        if let Some(game) = self.games.get_mut(number) {
            game.is_over = true;
        }
    }

    /// One game: its win, or None where it is lost.
    fn play_once<D: Deadline>(
        &mut self,
        rules: Rules,
        budget: Budget,
        is_decided: &AtomicBool,
        deadline: &D,
    ) -> Result<Option<Win<'a>>, Stop> {
        let positions = Positions::new(self.alloc, budget.positions, budget.bytes);
        let most = rules.bound.saturating_add(1);
        let meter = Meter::new(budget.steps);
        let game = Game::new(self.alloc, self.arena, positions, most, meter)?;
        let mut search = Search::new(game, rules.is_widened);
        let outcome = search.run(is_decided, deadline);
        self.used = self.used.saturating_add(search.game.meter.used());
        if !outcome? {
            return Ok(None);
        }
        let Search { game, nodes, .. } = search;
        Ok(Some(Win::new(game, nodes, rules.bound, self.used)?))
    }
}

/// The steps of a game at this place among the bounds.
fn steps_of(slice: u64, place: u32) -> u64 {
    slice.checked_shr(place).unwrap_or(0).max(1)
}
