//! The steps that are left, and draws.

use rand_core::utils::NextWord;
use rand_pcg::Pcg32;

/// What a search may still take, and its draws, which are a function of the number that they begin with.
#[derive(Drop)]
pub struct Work {
    left: u64,
    random: Pcg32,
}

impl Work {
    pub fn new(steps: u64, seed: u64) -> Work {
        Work {
            left: steps,
            random: Pcg32::new(seed, 54),
        }
    }

    /// The steps that are left. A step takes about a nanosecond.
    pub fn left(&self) -> u64 {
        self.left
    }

    pub fn is_over(&self) -> bool {
        self.left == 0
    }

    pub fn spend(&mut self, steps: usize) {
        self.left = self.left.saturating_sub(steps as u64);
    }

    /// A number below the bound; 0 where there is none.
    pub fn draw(&mut self, bound: u32) -> u32 {
        let word = self.random.next_word();
        if bound == 0 { 0 } else { word % bound }
    }

    pub fn shuffle<T>(&mut self, items: &mut [T]) {
        for place in 1..items.len() {
            let other = self.random.next_word() as usize % (place + 1);
            items.swap(place, other);
        }
    }
}
