//! One size, over one list of letters after another.
ghost use Rattle.std.specs.Prelude.{IfOk, IfSome};
ghost use Rattle.propositional_logic.specs.Clause.{IsFormula};

use crate::blocks::{Places, Span};
use crate::decoding::Decoding;
use crate::filling::{Filled, Filling};
use crate::letters::{Choice, Chosen, MOST_ROUNDS};
use crate::tracks::Tracks;
use crate::working::{Passage, Worked, search_clauses};
use input_output::Gate;
use letters_and_lassos::Side;
use machine_model::{Problem, Row};
use propositional_logic::{Assignment, Cnf};
use refutation_log::Entry;
use size_refutations::Ground;
use solved_text::SizeLog;
use std::alloc::{AllocError, Global};
use std::sync::Wait;
use std::thread::Threads;
use time_limits::Deadline;

/// A machine that was found, which is still to be tested.
#[derive(Drop)]
pub struct SmallMachine {
    pub states: u32,
    /// For each state its rows on all letters that are read, by their numbers. In what is written the first signal is bit 0.
    pub rows: Vec<Row>,
}

/// What came of a size.
#[derive(Drop)]
pub(crate) enum Tried {
    Refuted(SizeLog),
    /// There is a machine. None where its table isn't made.
    Found(Option<SmallMachine>),
    Full,
    TooLarge,
    /// The time is over.
    Time,
}

/// A size that is tried.
#[derive(Clone, Copy)]
pub(crate) struct Trial<'a, 'b> {
    pub(crate) alloc: Global,
    pub(crate) ground: &'b Ground<'a>,
    pub(crate) size: u32,
    /// The most base clauses.
    pub(crate) clauses: u64,
    /// The most looks at an edge with a letter that counting them may take.
    pub(crate) looks: u64,
    /// The most entries of a log.
    pub(crate) entries: Option<u64>,
    pub(crate) workers: u32,
}

/// What is to be done behind a list of letters.
#[derive(Drop)]
enum Next {
    Ends(Tried),
    GoesOn(Chosen),
}

/// A size is tried over at most so many lists of letters: the first ones, those with more, and all.
const LISTS: u32 = MOST_ROUNDS + 2;

impl Trial<'_, '_> {
    /// Tries a size over few letters, over more and more of them where these leave gaps, and then over all.
    pub(crate) fn tried<R: Threads + Wait + Sync, G: Gate + Sync, D: Deadline + Sync>(
        &self,
        rt: &R,
        gate: &G,
        deadline: &D,
    ) -> Result<Tried, AllocError> {
        let mut chosen = Chosen::first(self.alloc, self.ground.reads())?;
        for _ in 0..LISTS {
            if deadline.is_over() {
                return Ok(Tried::Time);
            }
            match self.tried_over(rt, gate, deadline, chosen)? {
                Next::Ends(tried) => return Ok(tried),
                Next::GoesOn(next) => chosen = next,
            }
        }
        Ok(Tried::TooLarge)
    }

    /// The number of base clauses over the first letters, where there is one.
    pub(crate) fn first_count(&self) -> Option<u64> {
        let chosen = Chosen::first(self.alloc, self.ground.reads()).ok()?;
        self.ground.count(self.size, &chosen.letters).ok()?
    }

    fn tried_over<R: Threads + Wait + Sync, G: Gate + Sync, D: Deadline + Sync>(
        &self,
        rt: &R,
        gate: &G,
        deadline: &D,
        chosen: Chosen,
    ) -> Result<Next, AllocError> {
        let Some(base) = self.base_over(&chosen.letters)? else {
            return Ok(Next::Ends(Tried::TooLarge));
        };
        let passage = Passage {
            gate,
            log: self.log_number(),
            deadline,
        };
        match search_clauses(rt, self.alloc, &base, self.entries, self.workers, passage)? {
            Worked::Refuted(entries) => {
                let log = self.log_of(chosen, &base, entries);
                Ok(Next::Ends(Tried::Refuted(log)))
            }
            Worked::Full => Ok(Next::Ends(Tried::Full)),
            Worked::Time => Ok(Next::Ends(Tried::Time)),
            Worked::Met(values) => self.after_model(chosen, &values),
        }
    }

    /// The base clauses over some letters, unless they are too many. They are counted before they are made.
    fn base_over(&self, letters: &[u32]) -> Result<Option<Cnf>, AllocError>
        ensures { IfOk result (λ made. IfSome made (λ base. IsFormula base.vars base.clauses.items)) }
    {
        if self.looks_over(letters) > self.looks {
            return Ok(None);
        }
        match self.ground.count(self.size, letters)? {
            Some(count) if count <= self.clauses => {
                self.ground.encoded(self.alloc, self.size, letters)
            }
            _ => Ok(None),
        }
    }

    /// The number of the size's log, as gates count them.
    fn log_number(&self) -> u32 {
        let system = self.size.saturating_mul(2);
        match self.ground.problem() {
            Some(problem) if problem.side == Side::Environment => system.saturating_add(1),
            _ => system,
        }
    }

    /// How many looks at an edge with a letter it takes to count base clauses over some letters.
    fn looks_over(&self, letters: &[u32]) -> u64 {
        match self.ground.problem() {
            Some(problem) => {
                let edges = problem.automaton.edges().len() as u64;
                edges.saturating_mul(letters.len() as u64)
            }
            None => 0,
        }
    }

    fn log_of(&self, chosen: Chosen, base: &Cnf, entries: Vec<Entry>) -> SizeLog {
        SizeLog {
            size: self.size,
            letters: chosen.into_letters(),
            vars: base.vars,
            base: base.clauses.len() as u64,
            entries,
            line: 0,
        }
    }

    /// The machine of values that meet the base clauses, or the letters that come next.
    fn after_model(&self, chosen: Chosen, values: &Assignment) -> Result<Next, AllocError> {
        match self.filled(&chosen, values)? {
            Filled::Whole(rows) => Ok(Next::Ends(Tried::Found(Some(SmallMachine {
                states: self.size,
                rows,
            })))),
            Filled::Gaps(gaps) => self.behind(&chosen, &gaps),
            Filled::TooLong => match chosen.choice {
                Choice::All => Ok(Next::Ends(Tried::Found(None))),
                Choice::First | Choice::Joined(_) => {
                    let all = Chosen::all(self.alloc, self.ground.reads())?;
                    Ok(Next::GoesOn(all))
                }
            },
        }
    }

    /// The letters that come behind those that left gaps.
    fn behind(&self, chosen: &Chosen, gaps: &[u32]) -> Result<Next, AllocError> {
        let next = chosen.next(self.alloc, self.ground.reads(), gaps)?;
        Ok(Next::GoesOn(next))
    }

    fn filled(&self, chosen: &Chosen, values: &Assignment) -> Result<Filled, AllocError> {
        let Some(problem) = self.ground.problem() else {
            return Ok(Filled::TooLong);
        };
        let Some(components) = problem.components() else {
            return Ok(Filled::TooLong);
        };
        let tracks = Tracks::of(self.alloc, &problem.automaton, components)?;
        let places = places_of(problem);
        let filling = Filling {
            alloc: self.alloc,
            decoding: Decoding {
                values: &values.values,
                size: self.size,
                letters: u32::try_from(chosen.letters.len()).unwrap_or(u32::MAX),
                writes: places.writes.count,
                kind: problem.kind,
            },
            letters: &chosen.letters,
            tracks: &tracks,
            places,
        };
        filling.filled()
    }
}

/// Which signals a side reads, and which it writes.
fn places_of(problem: &Problem) -> Places {
    let inputs = Span {
        first: 0,
        count: problem.inputs,
    };
    let outputs = Span {
        first: problem.inputs,
        count: problem.outputs,
    };
    match problem.side {
        Side::System => Places {
            reads: inputs,
            writes: outputs,
        },
        Side::Environment => Places {
            reads: outputs,
            writes: inputs,
        },
    }
}
