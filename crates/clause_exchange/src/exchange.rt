//! The shared log and its passes.
ghost use Rattle.std.specs.Prelude.{◌≡◌, ℕ, suc, ◌<◌, ◌≤◌, [], ◌∷◌, ◌++◌, Some, None, IfOk, IfErr, OnOk, OnErr, All, Contains, map, length, slice_get};
ghost use Rattle.std.specs.Arc.{arc_value};
ghost use Rattle.propositional_logic.specs.Clause.{IsWithinVariables, IsFormula};
ghost use Rattle.refutation_log.specs.Entry.{clauses_of, AreSorted};
ghost use Rattle.refutation_log.specs.Follows.{Follows};
ghost use Rattle.refutation_log.specs.Teaches.{Teaches};
ghost use Rattle.names_and_numbers.specs.Prefix.{IsPrefix};
ghost use Rattle.clause_exchange.specs.SharedLog.{IsLogOn, IsAfterTurn, IsOffered, HoldsAllOf, new_pass};
ghost use Rattle.clause_exchange.specs.Rule.{HasRoom, in_turn, view_parts};
ghost use Rattle.clause_exchange.specs.Opening.{exchange_of, holding, part_seen, IsDealer, IsDealt, IsGathered};

use crate::turns::{Place, Words, begin, copy, end, offer};
use crate::views::{Deal, Gather, OneAtATime, Setup, View};
use atomic_table::{Seat, Table};
use propositional_logic::Cnf;
use refutation_log::{Entry, LogState, Reply};
use std::alloc::{AllocError, Global};
use std::marker::Model;
use std::sync::{Arc, Wait};

/// A refutation log that the threads with its passes share. Seen by contracts as which one it is and what it was opened with.
#[derive(Drop)]
pub struct Exchange {
    table: Table<LogState, View, Setup, OneAtATime, Global>,
    setup: Setup,
}

impl Model for Exchange {
    ghost use Rattle.std.specs.Prelude.{◌≡◌, ◌<◌};
    ghost use Rattle.clause_exchange.specs.SharedLog.{SharedLog};

    ghost Value = { SharedLog };

    ghost use Rattle.clause_exchange.specs.Rule.{terms_of};

    ghost view = { λ e. record { id = e.table.shared.table_id; terms = terms_of e.setup } };

    ghost invariant = { λ e. (e.table.shared.table_id.words ≡ 1) × (e.table.shared.table_id.slots ≡ 1) × (e.table.shared.key ≡ e.setup) × (0 < e.setup.seats) };
}

/// The right to take turns on an exchange. Seen by contracts as its exchange, its number there, what it has seen of the log, and the
/// entries that it added: those that bear its number in what it has seen. It has no bytes.
#[derive(Drop)]
pub struct Pass {
    place: Seat<LogState, View>,
}

impl Model for Pass {
    ghost use Rattle.clause_exchange.specs.SharedLog.{PassView};

    ghost Value = { PassView };

    ghost use Rattle.clause_exchange.specs.Passes.{pass_view, IsPass};

    ghost view = { λ p. pass_view p.place.table_id p.place.me };

    ghost invariant = { λ p. IsPass p.place.me };
}

/// An exchange with its passes, whose numbers are their places.
#[derive(Drop)]
pub struct Opened {
    pub exchange: Exchange,
    pub passes: Vec<Pass>,
}

/// There was no memory. The entry comes back.
#[derive(Debug, Drop)]
pub struct Refused {
    pub entry: Entry,
}

impl Exchange {
    /// An exchange whose log is empty, and a pass for each of so many seats. Under a limit all memory for entries is taken here.
    pub fn open(
        alloc: Global,
        base: Arc<Cnf>,
        limit: Option<u64>,
        seats: u32,
    ) -> Result<Opened, AllocError>
        requires some { 0 < seats }
        requires few { seats ≤ 64 }
        requires formula { IsFormula (arc_value base).vars (arc_value base).clauses.items }
        ensures terms { IfOk result (λ o. o.exchange.terms ≡ record { vars = (arc_value base).vars; base = (arc_value base).clauses.items; limit = limit; seats = seats }) }
        ensures count { IfOk result (λ o. length o.passes.items ≡ seats) }
        ensures passes { IfOk result (λ o. (i : ℕ) → i < seats → slice_get o.passes.items i ≡ Some (new_pass o.exchange i)) }
    {
        let setup = Setup { base, limit, seats };
        let (table, dealer) = laid_out(alloc, &setup)?;
        let passes = deal(alloc, &table.shared, dealer, seats)?;
        let exchange = Exchange { table, setup };
        Ok(Opened { exchange, passes })
    }

    /// One turn, which only looks: the list becomes the log at this turn. Costs the entries that the list lacks, and waits for the
    /// turn.
    ///
    /// Where memory is wanted the list is the first part of that log.
    pub fn read<R: Wait>(
        &self,
        rt: &R,
        pass: &mut Pass,
        into: &mut Vec<Entry>,
    ) -> Result<(), AllocError>
        requires exchange { pass.old.exchange ≡ self.now }
        requires begins { IsPrefix into.old.items pass.old.seen }
        ensures turn { IsAfterTurn pass.old pass.new }
        ensures own { pass.new.own ≡ pass.old.own }
        ensures ok { OnOk result (into.new.items ≡ pass.new.seen) }
        ensures err { OnErr result (IsPrefix into.new.items pass.new.seen) }
    {
        begin(rt, &self.table.shared, &mut pass.place);
        let copied = copy(&self.table.shared, &mut pass.place, into);
        end(&self.table.shared, &mut pass.place);
        copied
    }

    /// One turn, which offers an entry. Waits for the turn, and costs the entry alone.
    ///
    /// Refused only where there is no limit and memory is wanted: then the turn was one that only looks, the pass has seen the log at
    /// this turn, and the entry comes back.
    pub fn append<R: Wait>(&self, rt: &R, pass: &mut Pass, entry: Entry) -> Result<Reply, Refused>
        requires exchange { pass.old.exchange ≡ self.now }
        requires by { entry.by ≡ pass.old.number }
        requires within { IsWithinVariables self.now.terms.vars entry.clause }
        requires follows { Follows (self.now.terms.base ++ clauses_of pass.old.seen) entry.clause entry.hints }
        requires teaches { Teaches (self.now.terms.base ++ clauses_of pass.old.own) entry.clause }
        ensures turn { IsAfterTurn pass.old pass.new }
        ensures ok { IfOk result (λ reply. IsOffered entry reply pass.old pass.new) }
        ensures err { IfErr result (λ refused. (refused.entry ≡ entry) × (pass.new.own ≡ pass.old.own) × (self.now.terms.limit ≡ None)) }
    {
        begin(rt, &self.table.shared, &mut pass.place);
        let reply = offer(&self.table.shared, &mut pass.place, self.setup.limit, entry);
        end(&self.table.shared, &mut pass.place);
        reply
    }

    /// The log, when no pass can take a turn any more. Takes no memory.
    pub fn close(self, passes: Vec<Pass>) -> LogState
        requires exchange { All (λ p. p.exchange ≡ self) passes.items }
        requires each { (number : ℕ) → number < self.terms.seats → Contains (map (λ p. p.number) passes.items) number }
        ensures log { IsLogOn self.terms result.entries }
        ensures sorted { AreSorted result.entries }
        ensures limit { result.limit ≡ self.terms.limit }
        ensures passes { All (HoldsAllOf result.entries) passes.items }
    {
        let Exchange { table, setup: _ } = self;
        let place = gather(&table.shared, passes);
        let mut closed = table.close_with(place);
        let log = closed.take(0);
        closed.free();
        log
    }
}

/// An empty log. Under a limit it has room for all entries.
fn empty_log(alloc: Global, limit: Option<u64>) -> Result<LogState, AllocError>
    ensures empty { IfOk result (λ log. log.entries ≡ []) }
    ensures room { IfOk result (HasRoom limit) }
{
    let mut log = LogState::new(alloc, limit);
    match limit {
        Some(_) => log.reserve()?,
        None => (),
    }
    Ok(log)
}

/// The table of an empty log, with the seat that holds all passes.
fn laid_out(
    alloc: Global,
    setup: &Setup,
) -> Result<(Table<LogState, View, Setup, OneAtATime, Global>, Place), AllocError>
    ensures key { IfOk result (λ laid. laid.0.shared.key ≡ setup.now) }
    ensures dealer { IfOk result (λ laid. IsDealer laid.0.shared.table_id setup.now laid.1) }
{
    let log = empty_log(alloc, setup.limit)?;
    let mut slots = Vec::with_capacity(alloc, 1)?;
    slots.push_reserved(log);
    match Table::new(alloc, &[0], slots, setup) {
        Ok(laid) => Ok(laid),
        Err(_) => Err(AllocError),
    }
}

/// Gives out the passes of a seat that holds them all.
fn deal(
    alloc: Global,
    words: &Words,
    mut dealer: Place,
    seats: u32,
) -> Result<Vec<Pass>, AllocError>
    requires dealer { IsDealer words.now.table_id words.now.key dealer }
    requires seats { seats ≡ words.now.key.seats }
    ensures { IfOk result (λ passes. IsDealt words.now.table_id words.now.key seats passes.items) }
{
    let mut passes = Vec::with_capacity(alloc, seats as usize)?;
    for _ in 0..seats {
        passes.push_reserved(deal_one(words, &mut dealer));
    }
    Ok(passes)
}

/// Gives out the first pass of those that a seat holds.
fn deal_one(words: &Words, dealer: &mut Place) -> Pass
    requires table { (dealer.old.table_id ≡ words.now.table_id) × (words.now.table_id.words ≡ 1) }
    requires holds { (number : ℕ) × (count : ℕ) × (dealer.old.me ≡ holding words.now.key number (suc count)) }
    ensures table { dealer.new.table_id ≡ dealer.old.table_id }
    ensures dealt { (number count : ℕ) → dealer.old.me ≡ holding words.now.key number (suc count) → (dealer.new.me ≡ holding words.now.key (suc number) count) × (result ≡ new_pass (exchange_of words.now.table_id words.now.key) number) }
{
    Pass {
        place: words.split_seat::<Deal>(dealer),
    }
}

/// Takes in all passes, the last one first.
fn gather(words: &Words, mut passes: Vec<Pass>) -> Place
    requires table { words.now.table_id.words ≡ 1 }
    requires some { 0 < length passes.items }
    requires own { All (λ p. p.exchange.id ≡ words.now.table_id) passes.items }
    ensures { IsGathered words.now.table_id result passes.items }
{
    let Some(last) = passes.pop() else {
        unreachable!()
    };
    let Pass { mut place } = last;
    while let Some(pass) = passes.pop() {
        gather_one(words, &mut place, pass);
    }
    place
}

/// Takes in one pass.
fn gather_one(words: &Words, place: &mut Place, pass: Pass)
    requires table { (place.old.table_id ≡ words.now.table_id) × (pass.exchange.id ≡ words.now.table_id) × (words.now.table_id.words ≡ 1) }
    requires rests { in_turn place.old.me.0 ≡ 0 }
    ensures same { place.new.table_id ≡ place.old.table_id }
    ensures gathered { (place.new.me.1 ≡ place.old.me.1) × (in_turn place.new.me.0 ≡ 0) × (view_parts place.new.me.0 ≡ part_seen pass ∷ view_parts place.old.me.0) }
{
    let Pass { place: other } = pass;
    words.join_seat::<Gather>(place, other);
}
