ghost use Rattle.std.specs.Prelude.{◌≡◌, ◌<◌, [], ◌++◌, None, Ok, IfOk, IfSome, All, length};
ghost use Rattle.propositional_logic.specs.Clause.{IsFormula, IsWithinVariables};
ghost use Rattle.clause_solver.specs.Free.{free_count};
ghost use Rattle.clause_solver.specs.Turned.{IsTurn};
ghost use Rattle.clause_solver.specs.Worker.{IsSearching};
ghost use Rattle.clause_solver.specs.Levels.{up_to, IsIdleBelow};

use crate::decisions::decision;
use crate::learning::{lesson, reward};
use crate::levels::settled_level;
use crate::models::model_of;
use crate::order::Order;
use crate::restarts::{Restarts, levels_in};
use crate::worker::Turned;
use propositional_logic::Cnf;
use refutation_log::Entry;
use std::alloc::{AllocError, Global};
use unit_propagate::{Propagated, Trail};

/// A worker's search.
#[derive(Debug, Drop)]
pub struct Search {
    pub number: u32,
    pub trail: Trail,

    // How many entries were seen when the last turn began.
    pub shown: usize,
    order: Order,
    restarts: Restarts,
}

impl Search {
    pub fn new(alloc: Global, number: u32, vars: u32) -> Result<Search, AllocError>
        ensures number { IfOk result (λ s. s.number ≡ number) }
        ensures trail { IfOk result (λ s. s.trail ≡ record { vars = vars; marks = []; watched = []; looked = 0 }) }
        ensures shown { IfOk result (λ s. s.shown ≡ 0) }
    {
        Ok(Search {
            number,
            trail: Trail::new(alloc, vars)?,
            shown: 0,
            order: Order::new(alloc, number, vars)?,
            restarts: Restarts::new(),
        })
    }

    /// Searches on until each variable has a value or a clause is learnt.
    pub fn turn(&mut self, alloc: Global, base: &Cnf, seen: &[Entry]) -> Result<Turned, AllocError>
        requires variables { base.now.vars ≡ self.old.trail.vars }
        requires formula { IsFormula base.now.vars base.now.clauses.items }
        requires within { All (λ e. IsWithinVariables base.now.vars e.clause) seen.now }
        requires searching { IsSearching base.now.clauses.items seen.now self.old.trail self.old.shown }
        ensures turned { IfOk result (IsTurn self.old.number base.now seen.now) }
        ensures searching { IsSearching base.now.clauses.items seen.now self.new.trail self.new.shown }
        ensures number { self.new.number ≡ self.old.number }
        ensures vars { self.new.trail.vars ≡ self.old.trail.vars }
    {
        self.settle(base, seen);
        loop {
            if let Some(turned) = self.step(alloc, base, seen)? {
                return Ok(turned);
            }
        }
    }

    /// Propagates, and then learns from a falsified clause, assumes a literal, or answers the model.
    fn step(
        &mut self,
        alloc: Global,
        base: &Cnf,
        seen: &[Entry],
    ) -> Result<Option<Turned>, AllocError>
        requires variables { base.now.vars ≡ self.old.trail.vars }
        requires formula { IsFormula base.now.vars base.now.clauses.items }
        requires within { All (λ e. IsWithinVariables base.now.vars e.clause) seen.now }
        requires searching { IsSearching base.now.clauses.items seen.now self.old.trail (length seen.now) }
        ensures turned { IfOk result (λ o. IfSome o (IsTurn self.old.number base.now seen.now)) }
        ensures searching { IsSearching base.now.clauses.items seen.now self.new.trail (length seen.now) }
        ensures fewer { result ≡ Ok None → free_count base.now.vars self.new.trail.marks < free_count base.now.vars self.old.trail.marks }
        ensures shown { self.new.shown ≡ self.old.shown }
        ensures number { self.new.number ≡ self.old.number }
        ensures vars { self.new.trail.vars ≡ self.old.trail.vars }
    {
        if let Propagated::Falsified(clause) = self.trail.propagate(base, seen)? {
            let entry = lesson(alloc, self.number, base, seen, &self.trail, clause)?;
            reward(&mut self.order, base, seen, &entry);
            self.restarts.count(levels_in(&self.trail, &entry));
            return Ok(Some(Turned::Learnt(entry)));
        }
        let Some(lit) = decision(&mut self.order, &self.trail, base.vars) else {
            let model = model_of(alloc, &self.trail, base)?;
            return Ok(Some(Turned::Model(model)));
        };
        self.trail.assume(lit);
        Ok(None)
    }

    /// Goes back so far that each level below the highest one is quiet over the entries that are new too: for a clause that was learnt
    /// from a conflict, to the level at which it is unit.
    fn settle(&mut self, base: &Cnf, seen: &[Entry])
        requires { IsSearching base.now.clauses.items seen.now self.old.trail self.old.shown }
        ensures searching { IsSearching base.now.clauses.items seen.now self.new.trail self.new.shown }
        ensures shown { self.new.shown ≡ length seen.now }
        ensures number { self.new.number ≡ self.old.number }
        ensures vars { self.new.trail.vars ≡ self.old.trail.vars }
    {
        let level = level_to_keep(&mut self.restarts, &self.trail, &seen[self.shown..]);
        release_above(&mut self.order, &self.trail, level);
        self.trail.back_to(level);
        self.shown = seen.len();
    }
}

/// The level to go back to: 0 where a restart is due, else the highest one below which the entries are idle.
fn level_to_keep(restarts: &mut Restarts, trail: &Trail, entries: &[Entry]) -> u32
    ensures { All (λ e. IsIdleBelow result trail.now.marks e.clause) entries.now }
{
    if restarts.take() {
        return 0;
    }
    settled_level(trail, entries)
}

/// Puts the variables above a level back into the order. Costs their number.
fn release_above(order: &mut Order, trail: &Trail, level: u32) {
    for place in (0..trail.len()).rev() {
        let (lit, at, _reason) = trail.at(place);
        if at <= level {
            return;
        }
        order.release(lit);
    }
}
