//! Workers on one list of base clauses, over one log that they share.
ghost use Rattle.std.specs.Prelude.{◌<◌, All, IfOk, OnOk, length};
ghost use Rattle.std.specs.Bool.{OnFalse};
ghost use Rattle.propositional_logic.specs.Clause.{IsFormula, IsWithinVariables};
ghost use Rattle.names_and_numbers.specs.Prefix.{IsPrefix};

use clause_solver::laws::work_goes_on;
use clause_solver::{Turned, Worker};
use input_output::{Gate, Moment};
use propositional_logic::{Assignment, Cnf, Lit};
use refutation_log::{Entry, LogState, Turn};
use std::alloc::{AllocError, Global};
use std::sync::{Mutex, Wait};
use std::thread::{self, Threads};
use time_limits::Deadline;

/// How a search over base clauses ended.
#[derive(Drop)]
pub(crate) enum Worked {
    /// With a closed log.
    Refuted(Vec<Entry>),
    /// These values meet them.
    Met(Assignment),
    /// The log has as many entries as it may have.
    Full,
    /// The time is over.
    Time,
}

/// What the workers share: the log, and values that meet the base clauses once a worker has some.
#[derive(Drop)]
struct Shared {
    log: LogState,
    met: Option<Assignment>,
}

impl Shared {
    fn is_decided(&self) -> bool {
        self.met.is_some() || self.log.is_closed() || self.log.is_full()
    }

    /// Appends to the entries those of the log that they lack, if these are over so many variables.
    fn copy_rest(&self, vars: u32, into: &mut Vec<Entry>) -> Result<(), AllocError>
        requires { All (λ e. IsWithinVariables vars e.clause) into.old.items }
        ensures within { OnOk result (All (λ e. IsWithinVariables vars e.clause) into.new.items) }
        ensures longer { OnOk result (IsPrefix into.old.items into.new.items) }
    {
        for i in into.len()..self.log.entries() {
            into.push(copy_of(&self.log, vars, i)?)?;
        }
        Ok(())
    }

    /// Takes what a worker's turn gave.
    fn take(&mut self, turned: Turned) -> Result<(), AllocError> {
        match turned {
            Turned::Model(assignment) => self.met = Some(assignment),
            Turned::Learnt(entry) => offer(&mut self.log, entry)?,
        }
        Ok(())
    }

    fn into_worked(self) -> Result<Worked, AllocError> {
        let Shared { log, met } = self;
        if let Some(assignment) = met {
            return Ok(Worked::Met(assignment));
        }
        if log.is_closed() {
            return Ok(Worked::Refuted(log.into_entries()?));
        }
        if log.is_full() {
            return Ok(Worked::Full);
        }
        Ok(Worked::Time)
    }
}

/// Offers an entry to a log, which takes it unless its clause is known, or the log is closed or full.
fn offer(log: &mut LogState, entry: Entry) -> Result<(), AllocError> {
    log.reserve()?;
    let _ = log.turn(Turn::Append(entry));
    Ok(())
}

/// A copy of the entry at a place, which is over so many variables, as all are that workers offer.
fn copy_of(log: &LogState, vars: u32, i: usize) -> Result<Entry, AllocError>
    requires { i < length log.now.entries }
    ensures { IfOk result (λ e. IsWithinVariables vars e.clause) }
{
    let entry = log.entry(i);
    let copy = Entry {
        by: entry.by,
        clause: entry.clause.clone()?,
        hints: entry.hints.clone()?,
    };
    if has_other_variable(vars, copy.clause.lits()) {
        return Err(AllocError);
    }
    Ok(copy)
}

/// Whether a variable passes the last one.
fn has_other_variable(vars: u32, lits: &[Lit]) -> bool
    ensures { OnFalse result (IsWithinVariables vars lits.now) }
{
    lits.iter().any(|lit| lit.var() > vars)
}

/// The gate that workers pass, the number of their log, and when they end.
#[derive_where(Clone, Copy)]
pub(crate) struct Passage<'a, 'b, G: Gate, D: Deadline> {
    pub(crate) gate: &'a G,
    pub(crate) log: u32,
    pub(crate) deadline: &'b D,
}

impl<G: Gate, D: Deadline> Passage<'_, '_, G, D> {
    /// The caller passes as the first worker.
    fn pass(&self, number: u32, moment: Moment) {
        self.gate.pass(number.max(1), self.log, moment);
    }
}

/// Searches until some values meet the base clauses, or the log is closed or full, or the time is over. One worker is the caller itself; more
/// have a thread each, and the caller does what they leave. Each passes the gate, and asks for the time, at each of its turns.
pub(crate) fn search_clauses<R: Threads + Wait + Sync, G: Gate + Sync, D: Deadline + Sync>(
    rt: &R,
    alloc: Global,
    base: &Cnf,
    most: Option<u64>,
    workers: u32,
    passage: Passage<'_, '_, G, D>,
) -> Result<Worked, AllocError>
    requires { IsFormula base.now.vars base.now.clauses.items }
{
    let shared = Mutex::new(Shared {
        log: LogState::new(alloc, most),
        met: None,
    });
    if workers > 1 {
        run_workers(rt, alloc, base, &shared, workers, passage)?;
    }
    work(rt, alloc, base, &shared, 0, passage)?;
    shared.into_inner().into_worked()
}

/// Lets so many workers search, each in a thread of its own where one can be made.
fn run_workers<R: Threads + Wait + Sync, G: Gate + Sync, D: Deadline + Sync>(
    rt: &R,
    alloc: Global,
    base: &Cnf,
    shared: &Mutex<Shared>,
    workers: u32,
    passage: Passage<'_, '_, G, D>,
) -> Result<(), AllocError>
    requires { IsFormula base.now.vars base.now.clauses.items }
{
    let mut numbers = Vec::new(alloc);
    for number in 1..workers.saturating_add(1) {
        numbers.push(number)?;
    }
    let _ended = thread::map_vec(
        rt,
        numbers,
        &|number: u32| -> bool
            requires { IsFormula base.now.vars base.now.clauses.items }
        { work(rt, alloc, base, shared, number, passage).is_ok() },
    )?;
    Ok(())
}

/// The work of one worker, until the clauses are decided or the time is over.
fn work<R: Wait, G: Gate, D: Deadline>(
    rt: &R,
    alloc: Global,
    base: &Cnf,
    shared: &Mutex<Shared>,
    number: u32,
    passage: Passage<'_, '_, G, D>,
) -> Result<(), AllocError>
    requires { IsFormula base.now.vars base.now.clauses.items }
{
    work_goes_on();
    let mut worker = Worker::new(alloc, number, base.vars)?;
    let mut entries = Vec::new(alloc);
    for _ in rt.forever() {
        if passage.deadline.is_over() {
            return Ok(());
        }
        if read(rt, shared, base.vars, &mut entries)? {
            return Ok(());
        }
        passage.pass(number, Moment::AfterRead);
        let turned = worker.turn(alloc, base, &entries)?;
        passage.pass(number, Moment::BeforeAppend);
        shared.lock(rt).take(turned)?;
        passage.pass(number, Moment::AfterAppend);
    }
    unreachable!()
}

/// Whether the clauses are decided; if not, the entries are all of the log afterwards.
fn read<R: Wait>(
    rt: &R,
    shared: &Mutex<Shared>,
    vars: u32,
    entries: &mut Vec<Entry>,
) -> Result<bool, AllocError>
    requires { All (λ e. IsWithinVariables vars e.clause) entries.old.items }
    ensures within { OnOk result (All (λ e. IsWithinVariables vars e.clause) entries.new.items) }
    ensures longer { OnOk result (IsPrefix entries.old.items entries.new.items) }
{
    let shared = shared.lock(rt);
    if shared.is_decided() {
        return Ok(true);
    }
    shared.copy_rest(vars, entries)?;
    Ok(false)
}
