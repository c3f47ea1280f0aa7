ghost use Rattle.std.specs.Prelude.{◌≡◌, [], IfOk, All};
ghost use Rattle.propositional_logic.specs.Clause.{IsFormula, IsWithinVariables};
ghost use Rattle.clause_solver.specs.Turned.{IsTurn};
ghost use Rattle.clause_solver.specs.Worker.{WorkerModel, IsWorkingOn};

use crate::search::Search;
use propositional_logic::{Assignment, Cnf};
use refutation_log::Entry;
use std::alloc::{AllocError, Global};
use std::marker::Model;

/// What a turn answers.
#[derive(Debug, Drop)]
pub enum Turned {
    /// An assignment that meets each base clause.
    Model(Assignment),
    /// A learnt clause, with the hints by which it follows.
    Learnt(Entry),
}

/// One of the workers on a list of base clauses: a search that goes on from turn to turn.
///
/// Seen by contracts as its number, its trail, and how many entries it was shown. Workers of different numbers begin differently.
#[derive(Debug, Drop)]
pub struct Worker {
    search: Search,
}

impl Model for Worker {
    ghost Value = { WorkerModel };

    ghost view = { λ w. record { number = w.search.number; trail = w.search.trail; shown = w.search.shown } };
}

impl Worker {
    /// A worker of that number, which has seen nothing yet. Takes memory and time in proportion to the variables.
    pub fn new(alloc: Global, number: u32, vars: u32) -> Result<Worker, AllocError>
        ensures { IfOk result (λ w. w ≡ record { number = number; trail = record { vars = vars; marks = []; watched = []; looked = 0 }; shown = 0 }) }
    {
        Ok(Worker {
            search: Search::new(alloc, number, vars)?,
        })
    }

    /// Searches on until each variable has a value or a clause is learnt.
    ///
    /// Of the entries, only those that are new since the last turn are gone through; else a turn costs what it touches, but for a model,
    /// which costs the variables and the base clauses. After want of memory the worker can turn again.
    pub fn turn(&mut self, alloc: Global, base: &Cnf, seen: &[Entry]) -> Result<Turned, AllocError>
        requires variables { base.now.vars ≡ self.old.trail.vars }
        requires formula { IsFormula base.now.vars base.now.clauses.items }
        requires within { All (λ e. IsWithinVariables base.now.vars e.clause) seen.now }

        // A caller gives the same base clauses at each turn, and at least the entries of the turns before, which come first.
        requires working { IsWorkingOn base.now.clauses.items seen.now self.old }
        ensures turned { IfOk result (IsTurn self.old.number base.now seen.now) }

        // In each answer, and after want of memory.
        ensures working { IsWorkingOn base.now.clauses.items seen.now self.new }
        ensures number { self.new.number ≡ self.old.number }
        ensures vars { self.new.trail.vars ≡ self.old.trail.vars }
    {
        self.search.turn(alloc, base, seen)
    }
}
