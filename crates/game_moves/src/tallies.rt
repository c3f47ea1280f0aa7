//! Which signal conditions ask for most often.

use game_arena::Literals;
use game_arena::tables::{at, put};

/// How often each signal is asked to be on, and how often to be off.
#[derive(Clone, Copy)]
pub(crate) struct Tally {
    on: [u32; 64],
    off: [u32; 64],
    /// The signals that are asked for at all.
    asked: u64,
}

impl Tally {
    pub(crate) fn new() -> Tally {
        Tally {
            on: [0; 64],
            off: [0; 64],
            asked: 0,
        }
    }

    pub(crate) fn add(&mut self, literals: Literals) {
        add_bits(&mut self.on, literals.on);
        add_bits(&mut self.off, literals.off);
        self.asked |= literals.on | literals.off;
    }

    /// The signal that is asked for most often, the first of several, and how often it is asked to be on and off.
    pub(crate) fn most_asked(&self) -> Option<Asked> {
        let mut most = Asked {
            signal: 0,
            on: 0,
            off: 0,
        };
        let mut left = self.asked;
        for _ in 0..self.asked.count_ones() {
            let asked = self.asked(left.trailing_zeros());
            left &= left.wrapping_sub(1);
            if asked.times() > most.times() {
                most = asked;
            }
        }
        if most.times() == 0 { None } else { Some(most) }
    }

    fn asked(&self, signal: u32) -> Asked {
        Asked {
            signal,
            on: at(&self.on, signal),
            off: at(&self.off, signal),
        }
    }
}

/// A signal, and how often it is asked to be on and to be off.
#[derive(Clone, Copy)]
pub(crate) struct Asked {
    pub(crate) signal: u32,
    pub(crate) on: u32,
    pub(crate) off: u32,
}

impl Asked {
    fn times(self) -> u32 {
        self.on.saturating_add(self.off)
    }
}

fn add_bits(counts: &mut [u32], signals: u64) {
    let mut left = signals;
    for _ in 0..signals.count_ones() {
        let signal = left.trailing_zeros();
        put(counts, signal, at(counts, signal).saturating_add(1));
        left &= left.wrapping_sub(1);
    }
}
