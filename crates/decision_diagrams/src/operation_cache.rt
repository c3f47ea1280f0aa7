//! What operations gave, where it wasn't overwritten yet.

use crate::functions::Function;
use std::alloc::{AllocError, Global};

/// Operations whose results are kept, as the highest bits of a key.
#[derive(Clone, Copy)]
pub(crate) enum Operation {
    And = 0,
    Xor = 1,
    IfThenElse = 2,
    Exists = 3,
    AndExists = 4,
    Compose = 5,
    Restrict = 6,
}

/// An operation at its operands.
#[derive(Clone, Copy, PartialEq, Eq)]
pub(crate) struct Key {
    first: u32,
    second: u32,
    /// The third operand, whose number is below 2^28, and the operation above it.
    third: u32,
}

#[derive(Clone, Copy)]
struct Entry {
    key: Key,
    result: Function,
}

/// The key of an entry that is empty, which no operation has.
const EMPTY: Key = Key {
    first: u32::MAX,
    second: u32::MAX,
    third: u32::MAX,
};

const EMPTY_ENTRY: Entry = Entry {
    key: EMPTY,
    result: Function::FALSE,
};

/// A table in which each key has one place, and the last result at a place stays.
#[derive(Drop)]
pub(crate) struct OperationCache {
    entries: Vec<Entry>,
}

impl Key {
    pub fn new(operation: Operation, first: Function, second: Function, third: Function) -> Key {
        Key {
            first: first.number(),
            second: second.number(),
            third: third.number() ^ ((operation as u32) << 28),
        }
    }

    /// The key of an operation on two operands.
    pub fn of_two(operation: Operation, first: Function, second: Function) -> Key {
        Key::new(operation, first, second, Function::FALSE)
    }

    /// The key of an operation at an operand and a number.
    pub fn of_number(operation: Operation, first: Function, number: u32) -> Key {
        Key {
            first: first.number(),
            second: number,
            third: (operation as u32) << 28,
        }
    }

    /// The key of the conjunction of two functions without a cube's variables.
    pub fn of_product(one: Function, other: Function, cube: Function) -> Key {
        if one.number() <= other.number() {
            Key::new(Operation::AndExists, one, other, cube)
        } else {
            Key::new(Operation::AndExists, other, one, cube)
        }
    }

    fn hash(self) -> u64 {
        let two = u64::from(self.first) ^ (u64::from(self.second) << 32);
        let mixed = two.wrapping_mul(0x9e37_79b9_7f4a_7c15);
        (mixed ^ u64::from(self.third)).wrapping_mul(0xd6e8_feb8_6659_fd93) >> 32
    }
}

impl OperationCache {
    /// So many empty entries, a power of two.
    pub fn new(alloc: Global, entries: usize) -> Result<OperationCache, AllocError> {
        Ok(OperationCache {
            entries: vec![in alloc; EMPTY_ENTRY; entries]?,
        })
    }

    pub fn entries(&self) -> usize {
        self.entries.len()
    }

    pub fn get(&self, key: Key) -> Option<Function> {
        let entry = self.entries.get(self.place_of(key))?;
        if entry.key == key {
            Some(entry.result)
        } else {
            None
        }
    }

    pub fn put(&mut self, key: Key, function: Function) {
        let place = self.place_of(key);
        if let Some(entry) = self.entries.get_mut(place) {
            *entry = Entry {
                key,
                result: function,
            };
        }
    }

    /// Twice as many entries, with what stands in them now.
    pub fn doubled(&self, alloc: Global) -> Result<OperationCache, AllocError> {
        let mut cache = OperationCache::new(alloc, self.entries.len().saturating_mul(2))?;
        for entry in &self.entries {
            cache.put(entry.key, entry.result);
        }
        Ok(cache)
    }

    pub fn clear(&mut self) {
        self.entries.fill(EMPTY_ENTRY);
    }

    fn place_of(&self, key: Key) -> usize {
        key.hash() as usize & self.entries.len().saturating_sub(1)
    }
}
