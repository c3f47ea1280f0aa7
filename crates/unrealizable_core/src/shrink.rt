//! Which guarantees are left out next, and which are needed.

ghost use Rattle.std.specs.Prelude.{◌≡◌, ◌↔◌, ℕ, ◌+◌, ◌<◌, ◌≤◌, IfOk, IsSome, IsTrue, None, Some, length, map, position, vec_len};
ghost use Rattle.unrealizable_core.specs.Shrink.{IsFirstOpenGuarantee, IsKeptGuarantee, IsNeeded, all_kept, answered, asked, is_open, reopened, told};

use std::alloc::{AllocError, Global};
use std::marker::Model;

/// How a number stands.
#[derive(Clone, Copy, Debug)]
pub enum Standing {
    /// Kept, and since the last drop no answer was false.
    Open,
    /// Kept, and answered false since the last drop, so over the numbers that are kept now.
    Needed,
    /// Dropped.
    Dropped,
}

impl Standing {
    fn is_open(self) -> bool
        ensures { result ≡ is_open self }
    {
        matches!(self, Standing::Open)
    }

    /// How it stands once a number was dropped: answers before that say nothing more.
    fn reopened(self) -> Standing
        ensures { result ≡ reopened self }
    {
        match self {
            Standing::Open | Standing::Needed => Standing::Open,
            Standing::Dropped => Standing::Dropped,
        }
    }
}

/// The numbers from 1 on, left out one at a time: a number is dropped where the rest can do without it. A contract sees how
/// each number stands, in order.
#[derive(Debug, Drop)]
pub struct Shrink {
    standings: Vec<Standing>,
}

impl Model for Shrink {
    ghost use Rattle.std.specs.Prelude.{◌≤◌, List, length};
    ghost use Rattle.unrealizable_core.specs.declared.shrink.Standing.{Standing};
    ghost use Rattle.unrealizable_core.specs.Shrink.{IsInTurn};

    ghost Value = { List Standing };

    ghost view = { λ s. s.standings.items };

    ghost invariant = { λ s. (length s.standings.items ≤ 64) × IsInTurn s.standings.items };
}

impl Shrink {
    /// The numbers 1 to `count`, all kept. No other call takes memory.
    pub fn new(alloc: Global, count: u32) -> Result<Shrink, AllocError>
        requires { count ≤ 64 }
        ensures { IfOk result (λ s. s ≡ all_kept count) }
    {
        Ok(Shrink {
            standings: vec![in alloc; Standing::Open; count as usize]?,
        })
    }

    /// The number to ask about: may it be dropped? It is the least one that is kept and hasn't been answered false since the last
    /// drop; there is none exactly where every kept number has.
    pub fn ask(&self) -> Option<u32>
        ensures value { result ≡ asked self.now }
        ensures least { (n : ℕ) → result ≡ Some n → IsFirstOpenGuarantee self.now n }
        ensures none { (result ≡ None) ↔ ((n : ℕ) → IsKeptGuarantee self.now n → IsNeeded self.now n) }
    {
        match first_open(&self.standings) {
            Some(place) => Some(place as u32 + 1),
            None => None,
        }
    }

    /// The answer to the question: a number that may be dropped is, and all questions about the others are open again; one that
    /// may not is needed.
    pub fn tell(&mut self, defeat: bool)
        requires { IsSome (asked self.old) }
        ensures value { self.new ≡ told defeat self.old }
        ensures numbers { length self.new ≡ length self.old }
    {
        let Some(number) = self.ask() else {
            unreachable!()
        };
        answer(&mut self.standings, number, defeat);
    }

    /// Whether the number is kept.
    pub fn keeps(&self, number: u32) -> bool
        requires first { 1 ≤ number }
        requires last { number ≤ length self.now }
        ensures { IsTrue result ↔ IsKeptGuarantee self.now number }
    {
        !matches!(self.standings[number as usize - 1], Standing::Dropped)
    }
}

/// What the answer about a number makes of them all.
fn answer(standings: &mut Vec<Standing>, number: u32, defeat: bool)
    requires first { 1 ≤ number }
    requires last { number ≤ vec_len standings.old }
    ensures { standings.new.items ≡ answered defeat number standings.old.items }
{
    let place = number as usize - 1;
    if defeat {
        standings[place] = Standing::Dropped;
        reopen(standings);
    } else {
        standings[place] = Standing::Needed;
    }
}

/// Opens the questions about all that are kept.
fn reopen(standings: &mut Vec<Standing>)
    ensures { standings.new.items ≡ map reopened standings.old.items }
{
    for standing in standings.iter_mut() {
        *standing = standing.reopened();
    }
}

/// The place of the first open one.
fn first_open(standings: &[Standing]) -> Option<usize>
    ensures { result ≡ position is_open standings.now }
{
    standings.iter().position(|standing| standing.is_open())
}
