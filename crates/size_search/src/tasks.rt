//! A size, and turns on it.
ghost use Rattle.std.specs.Prelude.{◌≡◌, ◌<◌, ◌≤◌, ℕ, ◌++◌, Some, None, Ok, IfOk, IfSome, All, Contains, map, length, slice_get};
ghost use Rattle.machine_model.specs.Machine.{MachineModel};
ghost use Rattle.machine_model.specs.Problem.{IsProblem};
ghost use Rattle.clause_exchange.specs.SharedLog.{IsLogOn, PassView, new_pass};
ghost use Rattle.clause_solver.specs.Turned.{IsLesson};
ghost use Rattle.refutation_log.specs.Entry.{clauses_of};
ghost use Rattle.refutation_log.specs.Log.{is_ended as is_ended_log};
ghost use Rattle.refutation_log.specs.Teaches.{entries_by};
ghost use Rattle.size_search.specs.Task.{IsTask, terms_of};
ghost use Rattle.size_search.specs.Seat.{GoesOn};
ghost use Rattle.size_search.specs.Decided.{IsAcceptedOf, IsClosedOn, IsDecided};
ghost use Rattle.size_search.specs.SizeLog.{HoldsEnded, IsSizeLog};

use crate::decided::Decided;
use crate::seats::Seat;
use crate::size_log::SizeLog;
use annotation_encode::encode;
use clause_exchange::{Exchange, Pass};
use clause_solver::Turned;
use clause_solver::laws::work_goes_on;
use input_output::{Gate, Moment, OpenGate};
use letters_and_lassos::Side;
use machine_decode::decode;
use machine_model::Problem;
use propositional_logic::Cnf;
use refutation_log::{Entry, Reply};
use std::alloc::{AllocError, Global};
use std::marker::Model;
use std::sync::{Arc, Wait};

/// One size of one side: its problem, the problem's base clauses, made once, and the shared log on which workers search it.
///
/// Seen by contracts as its problem and its shared log.
#[derive(Drop)]
pub struct SizeTask {
    problem: Problem,
    base: Arc<Cnf>,
    exchange: Exchange,
}

impl Model for SizeTask {
    ghost use Rattle.std.specs.Arc.{arc_value};
    ghost use Rattle.size_search.specs.Task.{SizeTaskModel, IsKeptTask};

    ghost Value = { SizeTaskModel };

    ghost view = { λ t. record { problem = t.problem; exchange = t.exchange } };

    ghost invariant = { λ t. IsKeptTask (record { problem = t.problem; exchange = t.exchange }) (arc_value t.base) };
}

/// A task with its seats, whose numbers are their places.
#[derive(Drop)]
pub struct Opened {
    pub task: SizeTask,
    pub seats: Vec<Seat>,
}

impl SizeTask {
    /// The task of a problem's size with an empty log, and its seats. Takes the memory of the base clauses, and under a limit that of
    /// the log's entries.
    pub fn open(
        alloc: Global,
        problem: Problem,
        limit: Option<u64>,
        seats: u32,
    ) -> Result<Opened, AllocError>
        requires problem { IsProblem problem }
        requires some { 0 < seats }
        requires few { seats ≤ 64 }
        ensures problem { IfOk result (λ o. o.task.problem ≡ problem) }
        ensures terms { IfOk result (λ o. o.task.exchange.terms ≡ terms_of problem limit seats) }
        ensures count { IfOk result (λ o. length o.seats.items ≡ seats) }
        ensures seats { IfOk result (λ o. (i : ℕ) → i < seats → slice_get o.seats.items i ≡ Some (new_pass o.task.exchange i)) }
    {
        let _states = problem.automaton.states();
        let base = Arc::new(alloc, encode(alloc, &problem)?)?;
        let opened = Exchange::open(alloc, base.clone()?, limit, seats)?;
        let seats = seats_of(alloc, opened.passes)?;
        let task = SizeTask {
            problem,
            base,
            exchange: opened.exchange,
        };
        Ok(Opened { task, seats })
    }

    /// The problem of this size.
    pub fn problem(&self) -> &Problem
        ensures value { result.now ≡ self.now.problem }
        ensures task { IsTask self.now }
    {
        &self.problem
    }

    /// One turn of a seat: it reads the log, searches on until it has a model or has learnt a clause, and offers that to the log. None
    /// where the size is still open, and then the log has grown since the seat last saw it.
    ///
    /// Waits for the turns of other seats at the log. Costs what the solver's turn costs, and the entries that are new to the seat. A
    /// seat whose number isn't 0 passes the gate after it read, before it appends and after it appended.
    ///
    /// After want of memory the seat may have lost its search, and begins it anew at its next turn.
    pub fn turn<R: Wait, G: Gate>(
        &self,
        rt: &R,
        alloc: Global,
        seat: &mut Seat,
        gate: &G,
    ) -> Result<Option<Decided>, AllocError>
        requires exchange { seat.old.exchange ≡ self.now.exchange }
        ensures goes_on { GoesOn seat.old seat.new }
        ensures decided { IfOk result (λ answer. IfSome answer (IsDecided self.now.problem self.now.exchange.terms seat.new.seen)) }
        ensures open { result ≡ Ok None → length seat.old.seen < length seat.new.seen }
    {
        let mut work = seat.take_work(alloc, self.base.vars)?;
        self.exchange.read(rt, &mut seat.pass, &mut work.entries)?;
        self.tell(seat, gate, Moment::AfterRead);
        if is_ended(&work.entries) {
            seat.put_work(work);
            return Ok(Some(Decided::Refuted));
        }
        let turned = work.worker.turn(alloc, &self.base, &work.entries)?;
        seat.put_work(work);
        match turned {
            Turned::Model(assignment) => {
                let decoded = decode(alloc, &self.problem, &assignment)?;
                Ok(Some(Decided::Found(decoded.machine)))
            }
            Turned::Learnt(entry) => self.offer(rt, seat, gate, entry),
        }
    }

    /// Takes turns until the size is decided.
    pub fn finish<R: Wait>(
        &self,
        rt: &R,
        alloc: Global,
        seat: &mut Seat,
    ) -> Result<Decided, AllocError>
        requires exchange { seat.old.exchange ≡ self.now.exchange }
        ensures goes_on { GoesOn seat.old seat.new }
        ensures decided { IfOk result (IsDecided self.now.problem self.now.exchange.terms seat.new.seen) }
    {
        for _ in rt.forever() {
            if let Some(decided) = self.turn(rt, alloc, seat, &OpenGate)? {
                return Ok(decided);
            }
        }
        unreachable!()
    }

    /// The log, when no seat takes a turn any more.
    pub fn close(self, alloc: Global, seats: Vec<Seat>) -> Result<SizeLog, AllocError>
        requires exchange { All (λ s. s.exchange ≡ self.exchange) seats.items }
        requires each { (number : ℕ) → number < self.exchange.terms.seats → Contains (map (λ s. s.number) seats.items) number }
        ensures log { IfOk result (IsSizeLog self.problem self.exchange.terms) }
        ensures refutes { IfOk result (λ l. IsClosedOn self.exchange.terms l.log.entries → (m : MachineModel) → IsAcceptedOf self.problem m → ⊥) }
        ensures ended { IfOk result (λ l. All (λ s. HoldsEnded self.exchange.terms l.log.entries s.seen) seats.items) }
    {
        let passes = passes_of(alloc, seats)?;
        let SizeTask {
            problem,
            base,
            exchange,
        } = self;
        Ok(SizeLog {
            side: problem.side,
            size: problem.size,
            vars: base.vars,
            base: base.clauses.len() as u64,
            log: exchange.close(passes),
        })
    }
}

impl SizeTask {
    /// Offers what a seat has learnt to the log.
    fn offer<R: Wait, G: Gate>(
        &self,
        rt: &R,
        seat: &mut Seat,
        gate: &G,
        entry: Entry,
    ) -> Result<Option<Decided>, AllocError>
        requires exchange { seat.old.exchange ≡ self.now.exchange }
        requires log { IsLogOn self.now.exchange.terms seat.old.seen }
        requires own { seat.old.own ≡ entries_by seat.old.number seat.old.seen }
        requires lesson { IsLesson seat.old.number self.now.exchange.terms.vars (self.now.exchange.terms.base ++ clauses_of seat.old.seen) entry }
        ensures goes_on { GoesOn seat.old seat.new }
        ensures decided { IfOk result (λ answer. IfSome answer (IsDecided self.now.problem self.now.exchange.terms seat.new.seen)) }
        ensures open { result ≡ Ok None → length seat.old.seen < length seat.new.seen }
    {
        let refutes = entry.clause.lits().is_empty();
        self.tell(seat, gate, Moment::BeforeAppend);
        let Ok(reply) = self.exchange.append(rt, &mut seat.pass, entry) else {
            return Err(AllocError);
        };
        self.tell(seat, gate, Moment::AfterAppend);
        match reply {
            Reply::Closed => Ok(Some(Decided::Refuted)),
            Reply::Full => Ok(Some(Decided::Full)),
            _ if refutes => Ok(Some(Decided::Refuted)),
            _ => Ok(None),
        }
    }

    /// Lets a seat pass the gate, if its number isn't 0.
    fn tell<G: Gate>(&self, seat: &Seat, gate: &G, moment: Moment) {
        let number = seat.number();
        if number != 0 {
            gate.pass(number, log_number(&self.problem), moment);
        }
    }
}

/// The number of the log of a problem's size.
fn log_number(problem: &Problem) -> u32
    requires { IsProblem problem.now }
{
    match problem.side {
        Side::System => 2 * problem.size,
        Side::Environment => 2 * problem.size + 1,
    }
}

/// Whether the last entry is the empty clause.
fn is_ended(entries: &[Entry]) -> bool
    ensures { result ≡ is_ended_log entries.now }
{
    match entries.last() {
        Some(entry) => entry.clause.lits().is_empty(),
        None => false,
    }
}

/// A seat for each pass, whose numbers are their places.
fn seats_of(alloc: Global, passes: Vec<Pass>) -> Result<Vec<Seat>, AllocError>
    requires few { length passes.items ≤ 64 }
    requires numbers { (i : ℕ) (p : PassView) → slice_get passes.items i ≡ Some p → p.number ≡ i }
    ensures { IfOk result (λ seats. seats.items ≡ passes.items) }
{
    let mut seats = Vec::with_capacity(alloc, passes.len())?;
    let mut number = 0;
    for pass in passes {
        seats.push(Seat::new(pass, number))?;
        number += 1;
    }
    Ok(seats)
}

/// The passes of seats. A pass has no bytes, so the list of them takes no memory.
fn passes_of(alloc: Global, seats: Vec<Seat>) -> Result<Vec<Pass>, AllocError>
    ensures { IfOk result (λ passes. passes.items ≡ seats.items) }
{
    seats.into_iter().map(Seat::into_pass).collect(alloc)
}
