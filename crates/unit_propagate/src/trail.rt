ghost use Rattle.std.specs.Prelude.{◌≡◌, ℕ, true, ◌+◌, ◌<◌, ◌≤◌, [], ◌∷◌, ◌++◌, Some, None, Ok, IfOk, IfSome, IfNone, OnOk, All, Contains, length, filter, nat_le, slice_get};
ghost use Rattle.propositional_logic.specs.Clause.{IsFormula, IsWithinVariables};
ghost use Rattle.refutation_log.specs.Entry.{clauses_of};
ghost use Rattle.refutation_log.specs.Follows.{is_falsified_named};
ghost use Rattle.unit_propagate.specs.declared.trail.Propagated.TheVariants.{Quiet, Falsified};
ghost use Rattle.unit_propagate.specs.declared.marks.Mark.{Mark};
ghost use Rattle.unit_propagate.specs.Trail.{TrailModel, IsFree, IsTrail, highest_level, literals_of};
ghost use Rattle.unit_propagate.specs.Sound.{AreSoundMarks, Extends};
ghost use Rattle.unit_propagate.specs.Quiet.{IsQuiet};
ghost use Rattle.unit_propagate.specs.Watched.{IsWatching, AreLookedAt};
ghost use Rattle.unit_propagate.specs.Propagator.{IsKeptPropagator};

use crate::propagator::Propagator;
use propositional_logic::{Cnf, Lit};
use refutation_log::Entry;
use std::alloc::{AllocError, Global};
use std::marker::Model;

/// How propagation ended.
#[derive(Clone, Copy, Debug, PartialEq, Eq)]
pub enum Propagated {
    /// No clause is falsified or unit.
    Quiet,
    /// The clause of that number is falsified.
    Falsified(u64),
}

/// The literals that are true, in the order in which they became so, each with its level and its reason.
///
/// Seen by contracts as the number of variables, the list of the literals, what is watched of the clauses that propagation was shown, and
/// how many of the literals were looked at.
#[derive(Debug, Drop)]
pub struct Trail {
    state: Propagator,
}

impl Model for Trail {
    ghost Value = { TrailModel };

    ghost view = { λ t. record { vars = t.state.marks.vars; marks = t.state.marks.marks; watched = t.state.watches.watched; looked = t.state.place } };

    ghost invariant = { λ t. IsKeptPropagator t.state };
}

impl Trail {
    /// An empty trail over the variables 1 to `vars`, with room for all of them.
    pub fn new(alloc: Global, vars: u32) -> Result<Trail, AllocError>
        ensures { IfOk result (λ t. t ≡ record { vars = vars; marks = []; watched = []; looked = 0 }) }
    {
        Ok(Trail {
            state: Propagator::new(alloc, vars)?,
        })
    }

    /// The number of literals.
    pub fn len(&self) -> usize
        ensures len { result ≡ length self.now.marks }
        ensures trail { IsTrail self.now.vars self.now.marks }
        ensures looked { AreLookedAt self.now.marks self.now.watched self.now.looked }
    {
        self.state.marks.len()
    }

    /// The literal at place `i`, from 0, with its level, and with its reason where it was not assumed.
    pub fn at(&self, i: usize) -> (Lit, u32, Option<u64>)
        requires { i < length self.now.marks }
        ensures { slice_get self.now.marks i ≡ Some (record { lit = result.0; level = result.1; reason = result.2 }) }
    {
        let mark = self.state.marks.at(i);
        (mark.lit, mark.level, mark.reason)
    }

    /// The value of a variable.
    pub fn value(&self, var: u32) -> Option<bool>
        ensures some { IfSome result (λ sign. Contains (literals_of self.now.marks) (record { var = var; positive = sign })) }
        ensures none { IfNone result (IsFree self.now.marks var) }
    {
        Some(self.state.marks.slot(var)?.positive)
    }

    /// The place of the literal that gives a variable its value.
    pub fn place(&self, var: u32) -> Option<usize>
        ensures some { IfSome result (λ i. (m : Mark) × (slice_get self.now.marks i ≡ Some m) × (m.lit.var ≡ var)) }
        ensures none { IfNone result (IsFree self.now.marks var) }
        ensures trail { IsTrail self.now.vars self.now.marks }
    {
        Some(self.state.marks.slot(var)?.place)
    }

    /// The highest level; that of an empty trail is 0.
    pub fn level(&self) -> u32
        ensures { result ≡ highest_level self.now.marks }
    {
        self.state.marks.level()
    }

    /// Makes a literal true on the next level. Takes no memory.
    pub fn assume(&mut self, lit: Lit)
        requires within { lit.var ≤ self.old.vars }
        requires free { IsFree self.old.marks lit.var }
        ensures { self.new ≡ record self.old { marks = self.old.marks ++ (record { lit = lit; level = highest_level self.old.marks + 1; reason = None }) ∷ [] } }
    {
        let level = self.state.marks.level() + 1;
        self.state.marks.push(lit, level, None);
    }

    /// Takes all literals above a level off; those up to it stay, with their reasons.
    pub fn back_to(&mut self, level: u32)
        ensures exact { self.new ≡ record self.old { marks = filter (λ m. nat_le m.level level) self.old.marks; looked = self.new.looked } }
        ensures looked { self.new.looked ≤ self.old.looked }
    {
        self.state.back_to(level);
    }

    /// Takes all literals off.
    pub fn clear(&mut self)
        ensures { self.new ≡ record self.old { marks = []; looked = 0 } }
    {
        self.state.clear();
    }

    /// Adds the literals that clauses force, until none is forced or a clause is falsified.
    ///
    /// The clauses are those of `base` and then those of the entries, numbered from 1. After want of memory the literals that were
    /// added stay.
    pub fn propagate(&mut self, base: &Cnf, seen: &[Entry]) -> Result<Propagated, AllocError>
        requires variables { base.now.vars ≡ self.old.vars }
        requires formula { IsFormula base.now.vars base.now.clauses.items }
        requires within { All (λ e. IsWithinVariables base.now.vars e.clause) seen.now }

        // A caller gives the same base clauses at each call, and at least the entries of the calls before, which come first.
        requires watching { IsWatching (base.now.clauses.items ++ clauses_of seen.now) self.old.watched }
        ensures looked { result ≡ Ok Quiet → self.new.looked ≡ length self.new.marks }
        ensures quiet { result ≡ Ok Quiet → IsQuiet (base.now.clauses.items ++ clauses_of seen.now) (literals_of self.new.marks) }
        ensures falsified { (n : ℕ) → result ≡ Ok (Falsified n) → is_falsified_named (base.now.clauses.items ++ clauses_of seen.now) (literals_of self.new.marks) n ≡ true }

        // In each answer, and after want of memory.
        ensures extends { Extends (base.now.clauses.items ++ clauses_of seen.now) self.old.marks self.new.marks }
        ensures sound { AreSoundMarks (base.now.clauses.items ++ clauses_of seen.now) self.old.marks → AreSoundMarks (base.now.clauses.items ++ clauses_of seen.now) self.new.marks }
        ensures watching { IsWatching (base.now.clauses.items ++ clauses_of seen.now) self.new.watched }
        ensures vars { self.new.vars ≡ self.old.vars }
    {
        match self.state.propagate(base, seen)? {
            Some(number) => Ok(Propagated::Falsified(number)),
            None => Ok(Propagated::Quiet),
        }
    }
}
