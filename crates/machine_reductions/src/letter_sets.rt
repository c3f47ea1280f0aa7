//! Sets of letters that are read, as blocks of 64, and the cubes that fit some of them.

use circuit_steps::{Stepper, letters_with, signal_bit};
use letters_and_lassos::{Cube, Side};
use std::alloc::{AllocError, Global};

/// A block has the letters of so many signals.
const SIGNALS_OF_BLOCK: u32 = 6;

/// The places in whole letters of what is read and of what is written.
#[derive(Clone, Copy)]
pub(crate) struct Layout {
    reads: Span,
    writes: Span,
}

/// So many signals from a first one on.
#[derive(Clone, Copy)]
struct Span {
    first: u32,
    count: u32,
}

/// The signals that a letter must have, and those that it must not have.
#[derive(Clone, Copy)]
struct Half {
    must: u64,
    not: u64,
}

/// A cube, as what it asks of what is read and of what is written.
#[derive(Clone, Copy)]
pub(crate) struct Condition {
    read: Half,
    written: Half,
}

impl Layout {
    pub(crate) fn of(side: Side, stepper: &Stepper) -> Layout {
        let (reads, writes) = (stepper.inputs(), stepper.outputs());
        let (read_at, write_at) = match side {
            Side::System => (0, reads),
            Side::Environment => (writes, 0),
        };
        Layout {
            reads: Span {
                first: read_at,
                count: reads,
            },
            writes: Span {
                first: write_at,
                count: writes,
            },
        }
    }

    /// The number of letters that are read.
    pub(crate) fn letters(self) -> usize {
        2usize.saturating_pow(self.reads.count.min(31))
    }

    /// A set of no letters.
    pub(crate) fn no_letters(self, alloc: Global) -> Result<Vec<u64>, AllocError> {
        vec![in alloc; 0u64; self.letters() / 64 + 1]
    }

    pub(crate) fn condition(self, cube: Cube) -> Condition {
        Condition {
            read: self.reads.half(cube),
            written: self.writes.half(cube),
        }
    }
}

impl Span {
    fn half(self, cube: Cube) -> Half {
        Half {
            must: self.part(cube.must),
            not: self.part(cube.not),
        }
    }

    fn part(self, signals: u64) -> u64 {
        let whole = 1u64.checked_shl(self.count).unwrap_or(0).wrapping_sub(1);
        signals.checked_shr(self.first).unwrap_or(0) & whole
    }
}

impl Condition {
    /// Whether it fits what is written together with some of the letters.
    pub(crate) fn fits(self, letters: &[u64], writes: u32) -> bool {
        self.written.fits(u64::from(writes)) && self.read.fits_some(letters)
    }
}

impl Half {
    fn fits(self, letter: u64) -> bool {
        self.must & letter == self.must && self.not & letter == 0
    }

    fn fits_some(self, letters: &[u64]) -> bool {
        let low = self.in_each_block();
        let high = Half {
            must: self.must >> SIGNALS_OF_BLOCK,
            not: self.not >> SIGNALS_OF_BLOCK,
        };
        for (block, word) in (0u64..u64::MAX).zip(letters) {
            if high.fits(block) && *word & low != 0 {
                return true;
            }
        }
        false
    }

    /// The letters of a block that fit it in the signals that differ within blocks.
    fn in_each_block(self) -> u64 {
        let mut letters = u64::MAX;
        for signal in 0..SIGNALS_OF_BLOCK {
            let with = letters_with(signal, 0);
            if self.must & signal_bit(signal) != 0 {
                letters &= with;
            }
            if self.not & signal_bit(signal) != 0 {
                letters &= !with;
            }
        }
        letters
    }
}

/// Adds a letter, or any number, to a set that has room for it.
pub(crate) fn add(set: &mut [u64], number: usize) {
    if let Some(word) = set.get_mut(number / 64) {
        *word |= 1u64 << (number % 64);
    }
}

/// Whether a number is in a set.
pub(crate) fn has(set: &[u64], number: usize) -> bool {
    let word = set.get(number / 64).copied().unwrap_or(0);
    word >> (number % 64) & 1 == 1
}

/// How many numbers of a set aren't in another one.
pub(crate) fn missing(set: &[u64], other: &[u64]) -> u32 {
    let mut count = 0u32;
    for (place, word) in set.iter().enumerate() {
        let known = other.get(place).copied().unwrap_or(0);
        count = count.saturating_add((*word & !known).count_ones());
    }
    count
}
