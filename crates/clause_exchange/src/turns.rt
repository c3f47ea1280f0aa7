//! The parts of one turn: the log is taken as soon as no other seat has it, something is done with it, and it is given back.
ghost use Rattle.std.specs.Prelude.{◌≡◌, ◌<◌, List, Option, Some, None, IfOk, OnOk, OnErr, length, slice_get};
ghost use Rattle.refutation_log.specs.State.{Log, KeepsLog};
ghost use Rattle.refutation_log.specs.declared.entries.Entry.{Entry as EntryView};
ghost use Rattle.clause_exchange.specs.declared.views.Part.{Part as PartView};
ghost use Rattle.names_and_numbers.specs.Prefix.{IsPrefix};
ghost use Rattle.clause_exchange.specs.Rule.{HasRoom};
ghost use Rattle.clause_exchange.specs.Steps.{idle, begun, Begins, IsMoved, moved};
ghost use Rattle.clause_exchange.specs.Offers.{IsOfferedTo, IsCopiedOf};

use crate::exchange::Refused;
use crate::views::{Give, OneAtATime, Setup, Take, View};
use atomic_table::{Seat, Shared};
use crossbeam_utils::Backoff;
use refutation_log::{Entry, LogState, Reply, Turn};
use std::alloc::AllocError;
use std::sync::Wait;

/// The word and the slot of an exchange, as its passes share them.
pub type Words = Shared<LogState, View, Setup, OneAtATime>;

/// What one pass knows, and the log while it has it.
pub type Place = Seat<LogState, View>;

/// The word while a seat has the log.
const TAKEN: u64 = 1;

/// The word while the log is at home.
const FREE: u64 = 0;

/// Waits until no other seat has the log, and takes it. Nobody stands in line: a seat that isn't running holds up the others only
/// while it has the log.
pub(crate) fn begin<R: Wait>(rt: &R, words: &Words, place: &mut Place)
    requires table { (place.old.table_id ≡ words.now.table_id) × (words.now.table_id.words ≡ 1) × (words.now.table_id.slots ≡ 1) }
    requires idle { (part : PartView) × (place.old.me ≡ idle part) }
    ensures same { (place.new.table_id ≡ place.old.table_id) × (place.new.id ≡ place.old.id) }
    ensures begun { (part : PartView) → place.old.me ≡ idle part → Begins part place.new.me }
{
    let backoff = Backoff::new();
    for _ in rt.forever() {
        if words.swap::<Take>(place, 0, TAKEN) == FREE {
            return;
        }
        backoff.snooze();
    }
    unreachable!()
}

/// Gives the log back.
pub(crate) fn end(words: &Words, place: &mut Place)
    requires table { (place.old.table_id ≡ words.now.table_id) × (words.now.table_id.words ≡ 1) × (words.now.table_id.slots ≡ 1) }
    requires moved { (log : List EntryView) × (value : Log) × (part : PartView) × (place.old.me ≡ begun log value part) × IsMoved part log value }
    ensures same { (place.new.table_id ≡ place.old.table_id) × (place.new.id ≡ place.old.id) }
    ensures idle { (log : List EntryView) (value : Log) (part : PartView) → place.old.me ≡ begun log value part → place.new.me ≡ idle (moved part value.entries) }
{
    words.store::<Give>(place, 0, FREE);
}

/// Offers an entry to the log that the seat has.
pub(crate) fn offer(
    words: &Words,
    place: &mut Place,
    limit: Option<u64>,
    entry: Entry,
) -> Result<Reply, Refused>
    requires table { place.old.table_id ≡ words.now.table_id }
    requires begun { (log : List EntryView) × (value : Log) × (part : PartView) × (place.old.me ≡ begun log value part) × HasRoom limit value }
    ensures same { (place.new.table_id ≡ place.old.table_id) × (place.new.id ≡ place.old.id) }
    ensures offered { (log : List EntryView) (value : Log) (part : PartView) → place.old.me ≡ begun log value part → (left : Log) × (place.new.me ≡ begun log left part) × IsOfferedTo limit value entry result left }
{
    offer_to(place.slot_mut(words, 0), limit, entry)
}

/// Copies what the list lacks of the log that the seat has.
pub(crate) fn copy(
    words: &Words,
    place: &mut Place,
    into: &mut Vec<Entry>,
) -> Result<(), AllocError>
    requires table { place.old.table_id ≡ words.now.table_id }
    requires begun { (log : List EntryView) × (value : Log) × (part : PartView) × (place.old.me ≡ begun log value part) × IsPrefix into.old.items value.entries }
    ensures same { (place.new.table_id ≡ place.old.table_id) × (place.new.id ≡ place.old.id) }
    ensures kept { place.new.me ≡ place.old.me }
    ensures copied { (log : List EntryView) (value : Log) (part : PartView) → place.old.me ≡ begun log value part → IsCopiedOf value.entries result into.new.items }
{
    copy_rest(place.slot_mut(words, 0), into)
}

/// Makes room where the log has none for sure, and takes the entry's turn.
fn offer_to(log: &mut LogState, limit: Option<u64>, entry: Entry) -> Result<Reply, Refused>
    requires { HasRoom limit log.old }
    ensures { IsOfferedTo limit log.old entry result log.new }
{
    match make_room(log, limit) {
        Ok(()) => Ok(log.turn(Turn::Append(entry))),
        Err(_) => Err(Refused { entry }),
    }
}

/// Room for one entry: under a limit there is some already, since it was made when the exchange was opened.
fn make_room(log: &mut LogState, limit: Option<u64>) -> Result<(), AllocError>
    requires { HasRoom limit log.old }
    ensures kept { KeepsLog log.old log.new }
    ensures room { OnOk result (0 < log.new.spare) }
    ensures limited { HasRoom limit log.new }
    ensures unlimited { OnErr result (limit ≡ None) }
{
    match limit {
        Some(_) => Ok(()),
        None => log.reserve(),
    }
}

/// Costs the entries that the list lacks.
fn copy_rest(log: &LogState, into: &mut Vec<Entry>) -> Result<(), AllocError>
    requires { IsPrefix into.old.items log.now.entries }
    ensures { IsCopiedOf log.now.entries result into.new.items }
{
    for i in into.len()..log.entries() {
        into.push(copy_of(log, i)?)?;
    }
    Ok(())
}

/// A copy of the entry at a place.
fn copy_of(log: &LogState, i: usize) -> Result<Entry, AllocError>
    requires { i < length log.now.entries }
    ensures { IfOk result (λ entry. slice_get log.now.entries i ≡ Some entry) }
{
    let entry = log.entry(i);
    Ok(Entry {
        by: entry.by,
        clause: entry.clause.clone()?,
        hints: entry.hints.clone()?,
    })
}
