//! What one worker has at one size.
ghost use Rattle.std.specs.Prelude.{◌≡◌, IfOk};
ghost use Rattle.size_search.specs.Seat.{IsWorkOf};

use clause_exchange::Pass;
use clause_solver::Worker;
use clause_solver::laws::work_goes_on;
use refutation_log::Entry;
use std::alloc::{AllocError, Global};
use std::marker::Model;

/// What one worker has at one size, and keeps when it comes back: its pass, its search, and the entries that it has read.
///
/// Seen by contracts as its pass. The search begins with the seat's first turn, so a seat that takes none costs nothing.
#[derive(Drop)]
pub struct Seat {
    pub(crate) pass: Pass,
    pub(crate) work: Option<Work>,
    number: u32,
}

impl Model for Seat {
    ghost use Rattle.std.specs.Prelude.{◌≡◌, IfSome};
    ghost use Rattle.clause_exchange.specs.SharedLog.{PassView};

    ghost Value = { PassView };

    ghost use Rattle.size_search.specs.Seat.{IsWorkOf};

    ghost view = { λ s. s.pass };

    ghost invariant = { λ s. (s.number ≡ s.pass.number) × IfSome s.work (λ work. IsWorkOf s.pass work.worker work.entries.items) };
}

/// A search, and the entries that it was shown.
#[derive(Drop)]
pub(crate) struct Work {
    pub worker: Worker,
    pub entries: Vec<Entry>,
}

impl Seat {
    /// A seat at which nothing was done yet.
    pub(crate) fn new(pass: Pass, number: u32) -> Seat
        requires { number ≡ pass.number }
        ensures { result ≡ pass }
    {
        Seat {
            pass,
            work: None,
            number,
        }
    }

    /// The seat's number at its log.
    pub fn number(&self) -> u32
        ensures { result ≡ self.now.number }
    {
        self.number
    }

    /// The pass, without what else the seat has.
    pub(crate) fn into_pass(self) -> Pass
        ensures { result ≡ self }
    {
        self.pass
    }

    /// Takes the seat's work out of it, or begins it.
    pub(crate) fn take_work(&mut self, alloc: Global, vars: u32) -> Result<Work, AllocError>
        requires { vars ≡ self.old.exchange.terms.vars }
        ensures same { self.new ≡ self.old }
        ensures work { IfOk result (λ work. IsWorkOf self.old work.worker work.entries.items) }
    {
        if let Some(work) = self.work.take() {
            return Ok(work);
        }
        work_goes_on();
        Ok(Work {
            worker: Worker::new(alloc, self.number, vars)?,
            entries: Vec::new(alloc),
        })
    }

    /// Puts the work back.
    pub(crate) fn put_work(&mut self, work: Work)
        requires { IsWorkOf self.old work.worker work.entries.items }
        ensures { self.new ≡ self.old }
    {
        self.work = Some(work);
    }
}
