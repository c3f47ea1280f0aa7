ghost use Rattle.std.specs.Prelude.{◌≡◌, ℕ, ◌+◌, ◌^◌, ◌<◌, ◌≤◌, ◌&&◌, not, List, [], ◌∷◌, ◌++◌, Some, None, length, map, slice_get, IfOk, IsOk, OnOk};
ghost use Rattle.indexmap.specs.IndexMap.{spare};
ghost use Rattle.propositional_logic.specs.Clause.{IsClause};
ghost use Rattle.refutation_log.specs.declared.turns.Turn.TheVariants.{Append};
ghost use Rattle.refutation_log.specs.Entry.{AreSorted};
ghost use Rattle.refutation_log.specs.Log.{is_ended};
ghost use Rattle.refutation_log.specs.Turn.{is_at_limit, clause_place as place_in, reply_to as reply_for, reply_of, log_after};
ghost use Rattle.refutation_log.specs.Shown.{shown};
ghost use Rattle.refutation_log.specs.State.{Log, entry_of, HasRoomFor, IsReserved, KeepsLog, KeepsSpare};

use crate::entries::Derivation;
use crate::{Entry, EntryRef, Reply, SharedClause, Turn};
use indexmap::IndexMap;
use std::alloc::{AllocError, Global};
use std::marker::Model;

/// A log with its limit, on which each call of `turn` is one event.
///
/// Seen by contracts as its list of entries, its limit, and how many more entries fit without memory being asked for. The clause of
/// each entry is sorted, with each variable once. An equal clause is found by hashing.
#[derive(Debug, Drop)]
pub struct LogState {
    entries: IndexMap<SharedClause, Derivation>,
    limit: Option<u64>,
}

impl Model for LogState {
    ghost Value = { Log };

    ghost view = { λ s. record { entries = map entry_of s.entries.entries; limit = s.limit; spare = spare s.entries } };

    ghost invariant = { λ s. AreSorted (map entry_of s.entries.entries) };
}

impl LogState {
    /// An empty log. Without a limit it is never full.
    pub fn new(alloc: Global, limit: Option<u64>) -> LogState
        ensures entries { result.entries ≡ [] }
        ensures limit { result.limit ≡ limit }
    {
        LogState {
            entries: IndexMap::new(alloc),
            limit,
        }
    }

    /// The number of entries.
    pub fn entries(&self) -> usize
        ensures len { result ≡ length self.now.entries }
        ensures small { result < 2 ^ 63 }
        ensures sorted { AreSorted self.now.entries }
    {
        self.entries.len()
    }

    /// The entry at place `i`, from 0.
    pub fn entry(&self, i: usize) -> EntryRef<'_>
        requires { i < length self.now.entries }
        ensures { slice_get self.now.entries i ≡ Some (shown result) }
    {
        let (clause, derivation) = self.entries.get_index(i).unwrap();
        EntryRef {
            by: derivation.by,
            clause,
            hints: &derivation.hints,
        }
    }

    /// Whether the last entry is the empty clause.
    pub fn is_closed(&self) -> bool
        ensures { result ≡ is_ended self.now.entries }
    {
        match self.entries.last() {
            Some((clause, _)) => clause.lits().is_empty(),
            None => false,
        }
    }

    /// Whether there is a limit, so many entries stand, and the last isn't the empty clause.
    pub fn is_full(&self) -> bool
        ensures { result ≡ (is_at_limit self.now.limit self.now.entries && not (is_ended self.now.entries)) }
    {
        self.is_at_limit() && !self.is_closed()
    }

    fn is_at_limit(&self) -> bool
        ensures { result ≡ is_at_limit self.now.limit self.now.entries }
    {
        match self.limit {
            Some(most) => most <= self.entries.len() as u64,
            None => false,
        }
    }

    /// The entries, in their order. Takes memory for the list, and moves the entries.
    pub fn into_entries(self) -> Result<Vec<Entry>, AllocError>
        ensures entries { IfOk result (λ entries. entries.items ≡ self.entries) }
        ensures sorted { AreSorted self.entries }
    {
        let LogState { entries, limit: _ } = self;
        let alloc = *entries.allocator();
        entries
            .into_iter()
            .map(|(clause, Derivation { by, hints })| Entry { by, clause, hints })
            .collect(alloc)
    }

    /// Makes room for one entry, and under a limit for one more than it still allows. Asks for memory only where that room is
    /// missing; without a limit it then doubles what there is.
    pub fn reserve(&mut self) -> Result<(), AllocError>
        ensures kept { KeepsLog self.old self.new }
        ensures room { OnOk result (IsReserved self.new) }
        ensures stands { IsReserved self.old → IsOk result }
        ensures spare { self.old.spare ≤ self.new.spare }
    {
        let len = self.entries.len();
        let most = match self.limit {
            Some(most) => len.max(most as usize),
            None => len,
        };
        if most < self.entries.capacity() {
            return Ok(());
        }
        let Some(room) = (most - len).checked_add(1) else {
            return Err(AllocError);
        };
        self.entries.reserve(room)
    }

    /// One event of the log: an entry is offered, or the log is read. Takes no memory.
    pub fn turn(&mut self, turn: Turn) -> Reply
        requires room { HasRoomFor self.old.spare turn }
        ensures reply { result ≡ reply_of self.old.entries self.old.limit turn }
        ensures entries { self.new.entries ≡ log_after self.old.entries self.old.limit turn }
        ensures limit { self.new.limit ≡ self.old.limit }

        // An entry that is taken uses up at most one place of the room, and nothing else does.
        ensures spare { KeepsSpare result self.old.spare self.new.spare }
    {
        match turn {
            Turn::Append(entry) => self.append(entry),
            Turn::Read => Reply::Seen(self.entries.len()),
        }
    }
}

impl LogState {
    /// Adds an entry whose clause is new, where neither the end nor the limit forbids it.
    fn append(&mut self, entry: Entry) -> Reply
        requires { 0 < self.old.spare }
        ensures reply { result ≡ reply_of self.old.entries self.old.limit (Append entry) }
        ensures entries { self.new.entries ≡ log_after self.old.entries self.old.limit (Append entry) }
        ensures limit { self.new.limit ≡ self.old.limit }
        ensures spare { KeepsSpare result self.old.spare self.new.spare }
    {
        let reply = self.reply_to(&entry.clause);
        if let Reply::At(_) = reply {
            put_last(&mut self.entries, entry);
        }
        reply
    }

    /// The reply to an entry with this clause.
    fn reply_to(&self, clause: &SharedClause) -> Reply
        ensures { result ≡ reply_for self.now.entries self.now.limit clause.now }
    {
        if let Some(place) = self.place_of(clause) {
            Reply::Known(place)
        } else if self.is_closed() {
            Reply::Closed
        } else if self.is_at_limit() {
            Reply::Full
        } else {
            Reply::At(self.entries.len())
        }
    }

    /// The place of an equal clause.
    fn place_of(&self, clause: &SharedClause) -> Option<usize>
        ensures { result ≡ place_in clause.now self.now.entries }
    {
        self.entries.get_index_of(clause)
    }
}

/// Puts an entry last whose clause is new.
fn put_last(entries: &mut IndexMap<SharedClause, Derivation>, entry: Entry)
    requires room { 0 < spare entries.old }
    requires unknown { place_in entry.clause (map entry_of entries.old.entries) ≡ None }
    ensures last { map entry_of entries.new.entries ≡ map entry_of entries.old.entries ++ entry ∷ [] }
    ensures sorted { IsClause entry.clause }
    ensures spare { spare entries.old ≤ spare entries.new + 1 }
{
    let Entry { by, clause, hints } = entry;
    let _sorted = clause.lits();
    let _none = entries.insert(clause, Derivation { by, hints }).unwrap();
}
