//! One size after another.
use crate::sizes::{SmallMachine, Trial, Tried};
use input_output::Gate;
use size_refutations::Ground;
use solved_text::SizeLog;
use std::alloc::{AllocError, Global};
use std::sync::Wait;
use std::thread::Threads;
use text_limits::LARGE_LIMITS;
use time_limits::Deadline;

/// How much is tried.
#[derive(Clone, Copy, Debug)]
pub struct Effort {
    /// Sizes up to this one. None: as far as their base clauses are few. Never above 16.
    pub max: Option<u32>,
    /// The most entries of a log. None: no limit.
    pub entries: Option<u64>,
    /// How many workers search, from 1 to 64. One is the caller itself.
    pub workers: u32,
}

/// Why no further size is refuted.
#[derive(Drop)]
pub enum Ended {
    /// None is left.
    AllRefuted,
    /// The log of this size has as many entries as it may have.
    Full(u32),
    /// The base clauses of this size, or those over its next letters, are too many.
    TooLarge(u32),
    /// There is a machine of this size. None where its table isn't made.
    Found(u32, Option<SmallMachine>),
    /// Memory ran out at this size.
    NoMemory(u32),
    /// The time was over at this size.
    Time(u32),
}

/// The logs of the sizes from 1 up that are refuted, each closed, and why there is no further one.
#[derive(Drop)]
pub struct Refutations {
    pub logs: Vec<SizeLog>,
    pub ended: Ended,
}

/// The most workers.
const MOST_WORKERS: u32 = 64;

/// Where no greatest size is given, a size, or a next list of its letters, is begun while its own base clauses and those of all closed logs are
/// at most so many in all.
const FEW_CLAUSES: u64 = 500_000;

/// And it is begun only where the edges of the side's automaton, each with each of the letters, are at most so many. To look at them takes
/// about a second.
const FEW_LOOKS: u64 = 1 << 28;

/// The sizes of one side, which are tried one after the other.
#[derive(Drop)]
pub struct Sizes<'a, 'b> {
    alloc: Global,
    ground: &'b Ground<'a>,
    effort: Effort,
    /// The next size, and the first one that isn't tried any more.
    next: u32,
    end: u32,
    /// How many base clauses there may still be.
    left: u64,
    logs: Vec<SizeLog>,
    ended: Option<Ended>,
}

impl<'a, 'b> Sizes<'a, 'b> {
    /// The sizes below a known one.
    pub fn new(alloc: Global, ground: &'b Ground<'a>, known: u32, effort: Effort) -> Sizes<'a, 'b> {
        let most = effort
            .max
            .unwrap_or(LARGE_LIMITS.machine)
            .min(LARGE_LIMITS.machine);
        Sizes {
            alloc,
            ground,
            effort,
            next: 1,
            end: known.min(most.saturating_add(1)),
            left: match effort.max {
                Some(_) => u64::MAX,
                None => FEW_CLAUSES,
            },
            logs: Vec::new(alloc),
            ended: None,
        }
    }

    /// Whether no further size is tried.
    pub fn is_ended(&self) -> bool {
        self.ended.is_some()
    }

    /// Whether there is a machine of the last size that was tried.
    pub fn has_found(&self) -> bool {
        matches!(self.ended, Some(Ended::Found(..)))
    }

    /// The number of base clauses with which the next size begins; where there is none, or it isn't allowed, the greatest number.
    pub fn next_clauses(&self) -> u64 {
        self.trial().first_count().unwrap_or(u64::MAX)
    }

    /// Tries the next size, if there is one. Each worker passes the gate, and asks for the time, at each turn.
    pub fn step<R: Threads + Wait + Sync, G: Gate + Sync, D: Deadline + Sync>(
        &mut self,
        rt: &R,
        gate: &G,
        deadline: &D,
    ) {
        if self.is_ended() {
            return;
        }
        if self.next >= self.end {
            self.ended = Some(Ended::AllRefuted);
            return;
        }
        let size = self.next;
        let end = match self.trial().tried(rt, gate, deadline) {
            Ok(Tried::Refuted(log)) => self.keep(log),
            Ok(Tried::Found(machine)) => Some(Ended::Found(size, machine)),
            Ok(Tried::Full) => Some(Ended::Full(size)),
            Ok(Tried::TooLarge) => Some(Ended::TooLarge(size)),
            Ok(Tried::Time) => Some(Ended::Time(size)),
            Err(_) => Some(Ended::NoMemory(size)),
        };
        self.ended = end;
    }

    fn trial(&self) -> Trial<'a, 'b> {
        Trial {
            alloc: self.alloc,
            ground: self.ground,
            size: self.next,
            clauses: self.left,
            looks: match self.effort.max {
                Some(_) => u64::MAX,
                None => FEW_LOOKS,
            },
            entries: self.effort.entries,
            workers: self.effort.workers.clamp(1, MOST_WORKERS),
        }
    }

    /// Keeps a log. Gives why no further size can be tried, if there is no memory for it.
    fn keep(&mut self, log: SizeLog) -> Option<Ended> {
        self.left = match self.effort.max {
            Some(_) => self.left,
            None => self.left.saturating_sub(log.base),
        };
        if self.logs.push(log).is_err() {
            return Some(Ended::NoMemory(self.next));
        }
        self.next = self.next.saturating_add(1);
        None
    }

    /// What came of the sizes that were tried.
    pub fn into_refutations(self) -> Refutations {
        let Sizes {
            logs,
            ended,
            next,
            ..
        } = self;
        Refutations {
            logs,
            ended: ended.unwrap_or(Ended::TooLarge(next)),
        }
    }
}

/// Refutes the sizes 1, 2 and so on below a known one, as far as the effort goes. Where memory runs out, or the time is over, the logs so far
/// are given. Each worker passes the gate, and asks for the time, at each turn.
pub fn refute_sizes<R: Threads + Wait + Sync, G: Gate + Sync, D: Deadline + Sync>(
    rt: &R,
    alloc: Global,
    ground: &Ground<'_>,
    known: u32,
    effort: Effort,
    gate: &G,
    deadline: &D,
) -> Refutations {
    let mut sizes = Sizes::new(alloc, ground, known, effort);
    for _ in 0..LARGE_LIMITS.machine + 1 {
        if sizes.is_ended() {
            break;
        }
        sizes.step(rt, gate, deadline);
    }
    sizes.into_refutations()
}
