//! What the edges that leave a position can do, each once.

use game_arena::tables::{at, put};
use game_arena::{Arena, Literals, Meter, Stop, Way};
use std::alloc::{AllocError, Global};

/// On letters with these literals a state is reached with some number, or, where there is no state, the game is lost.
#[derive(Clone, Copy)]
pub(crate) struct Item {
    pub(crate) read: Literals,
    pub(crate) write: Literals,
    pub(crate) to: Option<u32>,
    pub(crate) number: u8,
}

impl Item {
    /// Loses where its number is too great or its state is doomed.
    fn lose_beyond(&mut self, arena: &Arena, most: u8) {
        let dooms = match self.to {
            Some(to) => arena.is_doomed(to),
            None => false,
        };
        if self.number > most || dooms {
            self.to = None;
            self.number = 0;
        }
    }

    /// Whether this item does all that another does, or worse.
    fn does_all(&self, other: &Item) -> bool {
        let is_as_bad = match self.to {
            None => true,
            Some(_) => self.to == other.to && self.number >= other.number,
        };
        is_as_bad && self.read.covers(other.read) && self.write.covers(other.write)
    }
}

/// Items are compared with each other only where there are fewer than so many.
const MOST_COMPARED: usize = 1500;

/// The items of a position, whose greatest byte may be `most`, without those of which another does all. In `places` stands for each name
/// of ways where its item is, counted from 1; all are 0 before and after.
pub(crate) fn items_of(
    alloc: Global,
    arena: &Arena,
    places: &mut [u32],
    bytes: &[u8],
    most: u8,
    meter: &mut Meter,
) -> Result<Vec<Item>, Stop> {
    meter.take(count_ways(arena, bytes))?;
    let mut items = Vec::new(alloc);
    add_items(&mut items, arena, places, bytes)?;
    clear(arena, places, bytes);
    for item in items.iter_mut() {
        item.lose_beyond(arena, most);
    }
    without_less(alloc, items, meter)
}

/// The number of ways that leave a position.
fn count_ways(arena: &Arena, bytes: &[u8]) -> usize {
    let mut count = 0usize;
    for (state, byte) in (0u32..u32::MAX).zip(bytes) {
        if *byte > 0 {
            count = count.saturating_add(arena.ways_of(state).len());
        }
    }
    count
}

/// Adds the ways of all states of a position.
fn add_items(
    items: &mut Vec<Item>,
    arena: &Arena,
    places: &mut [u32],
    bytes: &[u8],
) -> Result<(), AllocError> {
    for (state, byte) in (0u32..u32::MAX).zip(bytes) {
        if *byte > 0 {
            add_ways(items, places, arena.ways_of(state), *byte)?;
        }
    }
    Ok(())
}

/// Adds the ways of a state that has this byte.
fn add_ways(
    items: &mut Vec<Item>,
    places: &mut [u32],
    ways: &[Way],
    byte: u8,
) -> Result<(), AllocError> {
    for way in ways {
        let number = number_after(way, byte);
        let place = at(places, way.name);
        if place == 0 {
            items.push(item_of(way, number))?;
            put(places, way.name, u32::try_from(items.len()).unwrap_or(0));
        } else if let Some(item) = items.get_mut(place.saturating_sub(1) as usize) {
            item.number = item.number.max(number);
        }
    }
    Ok(())
}

fn item_of(way: &Way, number: u8) -> Item {
    Item {
        read: way.read,
        write: way.write,
        to: Some(way.to),
        number,
    }
}

/// The byte behind a way. Numbers begin anew in each component.
fn number_after(way: &Way, byte: u8) -> u8 {
    if !way.inside {
        return 1;
    }
    byte.saturating_add(u8::from(way.marked))
}

fn clear(arena: &Arena, places: &mut [u32], bytes: &[u8]) {
    for (state, byte) in (0u32..u32::MAX).zip(bytes) {
        if *byte > 0 {
            for way in arena.ways_of(state) {
                put(places, way.name, 0);
            }
        }
    }
}

/// The items without those of which another does all. Of two that do the same the first stays.
fn without_less(alloc: Global, items: Vec<Item>, meter: &mut Meter) -> Result<Vec<Item>, Stop> {
    let mut sorted = items;
    sorted.sort_by_key(|item| item.to)?;
    if sorted.len() >= MOST_COMPARED {
        return Ok(sorted);
    }
    let losing = count_losing(&sorted);
    let mut kept = Vec::new(alloc);
    let mut begin = 0;
    let mut before = None;
    for (place, item) in sorted.iter().enumerate() {
        if item.to != before {
            begin = place;
            before = item.to;
        }
        meter.take(losing.saturating_add(place.saturating_sub(begin)))?;
        let is_less = gives_way(&sorted, begin, place, item)
            || (losing > 0 && gives_way(&sorted, 0, place, item));
        if !is_less {
            kept.push(*item)?;
        }
    }
    Ok(kept)
}

/// How many items lose.
fn count_losing(items: &[Item]) -> usize {
    let mut losing = 0usize;
    for item in items {
        if item.to.is_none() {
            losing = losing.saturating_add(1);
        }
    }
    losing
}

/// Whether one of the items that lead to the same state from this place on is kept rather than another item.
fn gives_way(sorted: &[Item], begin: usize, place: usize, item: &Item) -> bool {
    let Some(first) = sorted.get(begin) else {
        return false;
    };
    for (at, other) in sorted.iter().enumerate().skip(begin) {
        if other.to != first.to {
            break;
        }
        if is_rather(at, other, place, item) {
            return true;
        }
    }
    false
}

/// Whether an item is kept rather than another.
fn is_rather(at: usize, item: &Item, other_at: usize, other: &Item) -> bool {
    at != other_at && item.does_all(other) && (at < other_at || !other.does_all(item))
}
