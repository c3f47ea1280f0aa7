ghost use Rattle.std.specs.Prelude.{◌≡◌, ◌≢◌, ℕ, ◌+◌, ◌*◌, ◌<◌, ◌≤◌, ◌^◌, List, [], ◌∷◌, replicate, length, slice_get, IfOk, IfSome, IfNone, OnOk, OnErr, Some, IsSome};
ghost use Rattle.propositional_logic.specs.Literal.{Literal};
ghost use Rattle.propositional_logic.specs.Codes.{code_of};
ghost use Rattle.unit_propagate.specs.declared.rows.Watcher.{Watcher};
ghost use Rattle.unit_propagate.specs.Rows.{row_at};
ghost use Rattle.unit_propagate.specs.Watches.{WatchList, Adds, AddsAlone, KeepsWatches, Rewatches, CanRewatch, Keeps, CutsWatches, ordered};

use crate::arena::Arena;
use crate::rows::{Rows, Watcher};
use propositional_logic::Lit;
use std::alloc::{AllocError, Global};
use std::marker::Model;

/// The literals of each clause, the two watched ones first, and the clauses that watch a literal. Contracts see a watcher with the number of
/// its clause, from 0; it is kept with the clause's place in the array.
#[derive(Debug, Drop)]
pub struct Watches {
    arena: Arena,
    rows: Rows,
    units: Vec<usize>,
}

impl Model for Watches {
    ghost use Rattle.unit_propagate.specs.Watches.{WatchList, numbered_rows, ArePlaces};

    ghost Value = { WatchList };

    ghost view = { λ w. record { watched = w.arena.clauses; rows = numbered_rows w.arena.starts w.rows; units = w.units.items } };

    ghost invariant = { λ w. ArePlaces w.arena.starts w.rows };
}

/// The place of a literal's list.
fn code(lit: Lit) -> usize
    ensures value { result ≡ code_of lit }
    ensures small { result ≤ 2 * 2 ^ 30 + 1 }
{
    lit.code() as usize
}

impl Watches {
    /// No clauses, with lists for the literals of the variables below `room`.
    pub fn new(alloc: Global, room: usize) -> Result<Watches, AllocError>
        requires { room ≤ 2 ^ 32 }
        ensures { IfOk result (λ w. w ≡ record { watched = []; rows = replicate (2 * room) []; units = [] }) }
    {
        Ok(Watches {
            arena: Arena::new(alloc),
            rows: Rows::new(alloc, 2 * room)?,
            units: Vec::new(alloc),
        })
    }

    /// The number of clauses.
    pub fn len(&self) -> usize
        ensures value { result ≡ length self.now.watched }
        ensures small { result < 2 ^ 32 }
    {
        self.arena.len()
    }

    /// The literals of a clause, the watched ones first.
    pub fn clause(&self, k: usize) -> &[Lit]
        requires { k < length self.now.watched }
        ensures { slice_get self.now.watched k ≡ Some result.now }
    {
        self.arena.clause(k)
    }

    /// The number of clauses with one literal.
    pub fn units(&self) -> usize
        ensures { result ≡ length self.now.units }
    {
        self.units.len()
    }

    /// One of the clauses with one literal.
    pub fn unit(&self, i: usize) -> usize
        requires { i < length self.now.units }
        ensures { slice_get self.now.units i ≡ Some result }
    {
        self.units[i]
    }

    /// The literal of a clause with one literal.
    pub fn single(&self, k: usize) -> Lit
        requires { (l : Literal) × (slice_get self.now.watched k ≡ Some (l ∷ [])) }
        ensures value { slice_get self.now.watched k ≡ Some (result ∷ []) }
        ensures small { k < 2 ^ 63 }
    {
        prove!(k < self.len());
        self.arena.clause(k)[0]
    }

    /// The blocker of one of the clauses that watch a literal.
    pub fn blocker(&self, lit: Lit, i: usize) -> Option<Lit>
        requires { code_of lit ≤ 2 * 2 ^ 30 + 1 → code_of lit < length self.now.rows }
        ensures some { IfSome result (λ b. (x : Watcher) × (slice_get (row_at self.now.rows (code_of lit)) i ≡ Some x) × (x.blocker ≡ b)) }
        ensures none { IfNone result (length (row_at self.now.rows (code_of lit)) ≤ i) }
        ensures small { IsSome result → i < 2 ^ 63 }
    {
        Some(self.rows.get(code(lit), i)?.blocker)
    }

    /// The literals of one of the clauses that watch a literal, the watched ones first.
    pub fn watching(&self, lit: Lit, i: usize) -> &[Lit]
        requires fits { code_of lit ≤ 2 * 2 ^ 30 + 1 → code_of lit < length self.now.rows }
        requires there { i < length (row_at self.now.rows (code_of lit)) }
        ensures { (x : Watcher) → slice_get (row_at self.now.rows (code_of lit)) i ≡ Some x → slice_get self.now.watched x.clause ≡ Some result.now }
    {
        self.arena.at(self.rows.at(code(lit), i).clause)
    }

    /// The number, from 0, of one of the clauses that watch a literal.
    pub fn number(&self, lit: Lit, i: usize) -> u32
        requires fits { code_of lit ≤ 2 * 2 ^ 30 + 1 → code_of lit < length self.now.rows }
        requires there { i < length (row_at self.now.rows (code_of lit)) }
        ensures { (x : Watcher) → slice_get (row_at self.now.rows (code_of lit)) i ≡ Some x → result ≡ x.clause }
    {
        self.arena.number(self.rows.at(code(lit), i).clause)
    }

    /// Writes the watcher at place `i` of the list of a literal, with another blocker, at place `to`.
    pub fn keep(&mut self, lit: Lit, to: usize, i: usize, blocker: Lit)
        requires fits { code_of lit ≤ 2 * 2 ^ 30 + 1 → code_of lit < length self.old.rows }
        requires in_row { to < length (row_at self.old.rows (code_of lit)) }
        requires there { i < length (row_at self.old.rows (code_of lit)) }
        ensures { (x : Watcher) → slice_get (row_at self.old.rows (code_of lit)) i ≡ Some x → Keeps self.old self.new (code_of lit) to (record { clause = x.clause; blocker = blocker }) }
    {
        let clause = self.rows.at(code(lit), i).clause;
        self.rows.set(code(lit), to, Watcher { clause, blocker });
    }

    /// Takes the watchers from place `from` up to place `to` out of the list of a literal.
    pub fn cut(&mut self, lit: Lit, from: usize, to: usize)
        requires order { from ≤ to }
        requires fits { code_of lit ≤ 2 * 2 ^ 30 + 1 → code_of lit < length self.old.rows }
        requires in_row { to ≤ length (row_at self.old.rows (code_of lit)) }
        ensures { CutsWatches self.old self.new (code_of lit) from to }
    {
        self.rows.cut(code(lit), from, to);
    }

    /// The clause of the watcher at place `i` of the list of its literal `from` watches its literal `to` at place `j`, with this blocker, in
    /// place of `from` at place `p`, in whose list it still stands.
    pub fn rewatch(
        &mut self,
        i: usize,
        p: usize,
        j: usize,
        from: Lit,
        to: Lit,
        blocker: Lit,
    ) -> Result<(), AllocError>
        requires fits { code_of from ≤ 2 * 2 ^ 30 + 1 → code_of from < length self.old.rows }
        requires there { (x : Watcher) × (slice_get (row_at self.old.rows (code_of from)) i ≡ Some x) × CanRewatch self.old x.clause p j from to }
        ensures ok { OnOk result ((x : Watcher) → slice_get (row_at self.old.rows (code_of from)) i ≡ Some x → Rewatches self.old self.new (record { clause = x.clause; blocker = blocker }) p j from to) }
        ensures err { OnErr result (self.new ≡ self.old) }
    {
        let clause = self.rows.at(code(from), i).clause;
        self.rows.push(code(to), Watcher { clause, blocker })?;
        self.arena.exchange(clause, p, j);
        Ok(())
    }

    /// Watches two literals of the next clause.
    pub fn add(&mut self, lits: &[Lit], first: Lit, second: Lit) -> Result<(), AllocError>
        requires first_fits { code_of first ≤ 2 * 2 ^ 30 + 1 → code_of first < length self.old.rows }
        requires second_fits { code_of second ≤ 2 * 2 ^ 30 + 1 → code_of second < length self.old.rows }
        ensures ok { OnOk result (Adds self.old self.new (ordered lits.now first second)) }
        ensures err { OnErr result (KeepsWatches self.old self.new) }
    {
        let Some(clause) = self.arena.next() else {
            return Err(AllocError);
        };
        self.arena.push(lits, first, second)?;
        let at_first = Watcher {
            clause,
            blocker: second,
        };
        let at_second = Watcher {
            clause,
            blocker: first,
        };
        if let Err(error) = self
            .rows
            .push_both(code(first), at_first, code(second), at_second)
        {
            self.arena.pop();
            return Err(error);
        }
        Ok(())
    }

    /// Keeps the next clause, which has no other literal.
    pub fn add_alone(&mut self, lit: Lit) -> Result<(), AllocError>
        ensures ok { OnOk result (AddsAlone self.old self.new lit) }
        ensures err { OnErr result (KeepsWatches self.old self.new) }
    {
        let k = self.arena.len();
        self.units.reserve(1)?;
        self.arena.push_alone(lit)?;
        self.units.push(k).unwrap();
        Ok(())
    }
}
