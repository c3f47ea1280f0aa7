//! Sets of columns, 64 in a word, and signals that are set on some of them.

use std::alloc::{AllocError, Global};

/// A signal or its opposite, on all columns.
#[derive(Clone, Copy)]
pub struct Signal<'a> {
    words: &'a [u64],
    /// All bits where it is the opposite, else none.
    flip: u64,
}

/// Whether a signal is set, and whether it is unset, somewhere on two sets of columns.
#[derive(Clone, Copy)]
pub struct Meeting {
    pub on_set: bool,
    pub on_unset: bool,
    pub off_set: bool,
    pub off_unset: bool,
}

impl<'a> Signal<'a> {
    pub fn new(words: &'a [u64], is_opposite: bool) -> Signal<'a> {
        let flip = if is_opposite { u64::MAX } else { 0 };
        Signal { words, flip }
    }

    /// How it meets the columns that shall be on and those that shall be off. What isn't known of it counts as nowhere.
    pub fn meeting(self, on: &[u64], off: &[u64]) -> Meeting {
        let mut found = [0u64; 4];
        for (word, (on, off)) in self.words.iter().zip(on.iter().zip(off)) {
            let value = *word ^ self.flip;
            let [on_set, on_unset, off_set, off_unset] = found;
            found = [
                on_set | (*on & value),
                on_unset | (*on & !value),
                off_set | (*off & value),
                off_unset | (*off & !value),
            ];
            if found.iter().all(|columns| *columns != 0) {
                break;
            }
        }
        let [on_set, on_unset, off_set, off_unset] = found;
        Meeting {
            on_set: on_set != 0,
            on_unset: on_unset != 0,
            off_set: off_set != 0,
            off_unset: off_unset != 0,
        }
    }

    /// The columns on which both are set.
    pub fn and(self, alloc: Global, other: Signal<'_>) -> Result<Vec<u64>, AllocError> {
        let mut both = vec![in alloc; 0u64; self.words.len()]?;
        let operands = self.words.iter().zip(other.words);
        for (place, (one, two)) in both.iter_mut().zip(operands) {
            *place = (*one ^ self.flip) & (*two ^ other.flip);
        }
        Ok(both)
    }
}

pub fn is_clear(columns: &[u64]) -> bool {
    columns.iter().all(|word| *word == 0)
}

pub fn count(columns: &[u64]) -> u64 {
    let mut count = 0u64;
    for word in columns {
        count = count.saturating_add(u64::from(word.count_ones()));
    }
    count
}

/// How many of these columns the signal is set on.
pub fn count_where(columns: &[u64], signal: Signal<'_>) -> u64 {
    let mut count = 0u64;
    for (word, own) in columns.iter().zip(signal.words) {
        let met = *word & (*own ^ signal.flip);
        count = count.saturating_add(u64::from(met.count_ones()));
    }
    count
}

/// Those of these columns that the signal is set on.
pub fn part(alloc: Global, columns: &[u64], signal: Signal<'_>) -> Result<Vec<u64>, AllocError> {
    Signal::new(columns, false).and(alloc, signal)
}

/// Whether two signals are set on none of these columns together.
pub fn are_never_both(columns: &[u64], one: Signal<'_>, other: Signal<'_>) -> bool {
    for (word, (left, right)) in columns.iter().zip(one.words.iter().zip(other.words)) {
        if *word & (*left ^ one.flip) & (*right ^ other.flip) != 0 {
            return false;
        }
    }
    true
}

/// The first of these columns.
pub fn first_column(columns: &[u64]) -> Option<usize> {
    for (place, word) in columns.iter().enumerate() {
        if *word != 0 {
            let bit = word.trailing_zeros() as usize;
            return Some(place.saturating_mul(64).saturating_add(bit));
        }
    }
    None
}

pub fn has_column(columns: &[u64], column: usize) -> bool {
    match columns.get(column / 64) {
        Some(word) => (*word >> (column % 64)) & 1 == 1,
        None => false,
    }
}

/// Whether two sets are equal, or opposites; None where they are neither.
pub(crate) fn opposed(one: &[u64], other: &[u64]) -> Option<bool> {
    let flip = first_bits(one) ^ first_bits(other);
    for (left, right) in one.iter().zip(other) {
        if *left ^ *right != flip {
            return None;
        }
    }
    Some(flip != 0)
}

/// A number for a set and its opposite.
pub(crate) fn hash_of(columns: &[u64]) -> u64 {
    let flip = first_bits(columns);
    let mut hash = 0u64;
    for word in columns {
        hash = (hash ^ *word ^ flip).wrapping_mul(0x9e37_79b9_7f4a_7c15);
        hash ^= hash >> 29;
    }
    hash
}

/// All bits where the first column is in the set, else none.
fn first_bits(columns: &[u64]) -> u64 {
    match columns.first() {
        Some(word) if *word & 1 == 1 => u64::MAX,
        _ => 0,
    }
}
