ghost use Rattle.std.specs.Prelude.{◌≡◌, ◌<◌, ◌≤◌, List, [], length, map, replicate, slice_get, IsSome, Some, ◌^◌, IfOk, OnOk, OnErr};
ghost use Rattle.unit_propagate.specs.Rows.{row_at, AddsTo, AddsBoth, SetsAt, CutsOut};

use propositional_logic::Lit;
use std::alloc::{AllocError, Global};
use std::marker::Model;

/// A clause that watches a literal, by its place, and a literal of the clause that is looked at first: where that one is true, the clause
/// needs nothing.
#[derive(Clone, Copy, Debug)]
pub struct Watcher {
    pub clause: u32,
    pub blocker: Lit,
}

/// A table of lists of watchers. Seen by contracts as the list of these lists.
#[derive(Debug, Drop)]
pub struct Rows {
    rows: Vec<Vec<Watcher>>,
}

impl Model for Rows {
    ghost use Rattle.std.specs.Prelude.{List, map};
    ghost use Rattle.unit_propagate.specs.declared.rows.Watcher.{Watcher};

    ghost Value = { List (List Watcher) };

    ghost view = { λ t. map (λ row. row.items) t.rows.items };
}

impl Rows {
    /// So many empty lists.
    pub fn new(alloc: Global, count: usize) -> Result<Rows, AllocError>
        ensures { IfOk result (λ rows. rows ≡ replicate count []) }
    {
        let mut rows = Vec::with_capacity(alloc, count)?;
        for _i in 0..count {
            rows.push(Vec::new(alloc))?;
        }
        Ok(Rows { rows })
    }

    /// The watcher at place `i` of a list.
    pub fn get(&self, row: usize, i: usize) -> Option<Watcher>
        requires { row < length self.now }
        ensures value { result ≡ slice_get (row_at self.now row) i }
        ensures small { IsSome result → i < 2 ^ 63 }
    {
        self.rows[row].get(i).copied()
    }

    /// The watcher at place `i` of a list that has one there.
    pub fn at(&self, row: usize, i: usize) -> Watcher
        requires in_table { row < length self.now }
        requires in_row { i < length (row_at self.now row) }
        ensures { slice_get (row_at self.now row) i ≡ Some result }
    {
        self.rows[row][i]
    }

    /// Puts a watcher last in a list.
    pub fn push(&mut self, row: usize, watcher: Watcher) -> Result<(), AllocError>
        requires { row < length self.old }
        ensures ok { OnOk result (AddsTo self.old self.new row watcher) }
        ensures err { OnErr result (self.new ≡ self.old) }
    {
        self.rows[row].push(watcher)?;
        Ok(())
    }

    /// Puts a watcher last in a list, and then one in another, or neither.
    pub fn push_both(
        &mut self,
        first: usize,
        x: Watcher,
        second: usize,
        y: Watcher,
    ) -> Result<(), AllocError>
        requires first_fits { first < length self.old }
        requires second_fits { second < length self.old }
        ensures ok { OnOk result (AddsBoth self.old self.new first x second y) }
        ensures err { OnErr result (self.new ≡ self.old) }
    {
        let end = self.rows[first].len();
        self.push(first, x)?;
        if let Err(error) = self.push(second, y) {
            self.cut(first, end, end + 1);
            return Err(error);
        }
        Ok(())
    }

    /// Writes a watcher at place `i` of a list.
    pub fn set(&mut self, row: usize, i: usize, watcher: Watcher)
        requires in_table { row < length self.old }
        requires in_row { i < length (row_at self.old row) }
        ensures { SetsAt self.old self.new row i watcher }
    {
        self.rows[row][i] = watcher;
    }

    /// Takes the watchers from place `from` up to place `to` out of a list. Costs the number of those behind.
    pub fn cut(&mut self, row: usize, from: usize, to: usize)
        requires order { from ≤ to }
        requires in_table { row < length self.old }
        requires in_row { to ≤ length (row_at self.old row) }
        ensures { CutsOut self.old self.new row from to }
    {
        let list = &mut self.rows[row];
        let behind = list.len() - to;
        list.copy_within(to.., from);
        list.truncate(from + behind);
    }
}
