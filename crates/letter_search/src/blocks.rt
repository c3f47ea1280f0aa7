//! Which letters a machine may write.
use letters_and_lassos::Cube;
use std::alloc::{AllocError, Global};

/// Which signals are read, and which are written.
#[derive(Clone, Copy)]
pub(crate) struct Places {
    pub(crate) reads: Span,
    pub(crate) writes: Span,
}

/// So many signals from a first one on.
#[derive(Clone, Copy)]
pub(crate) struct Span {
    pub(crate) first: u32,
    pub(crate) count: u32,
}

/// The signals that a letter must have, and those that it must not have.
#[derive(Clone, Copy)]
pub(crate) struct Half {
    must: u32,
    not: u32,
}

/// A condition on what is read and on what is written, each with its first signal as bit 0.
#[derive(Clone, Copy)]
pub(crate) struct Block {
    read: Half,
    written: Half,
}

/// Counts steps down.
#[derive(Drop)]
pub(crate) struct Steps {
    pub(crate) left: u64,
}

impl Span {
    /// The letter with all of its signals, with the first one as bit 0.
    pub(crate) fn whole(self) -> u32 {
        2u32.saturating_pow(self.count.min(31)).saturating_sub(1)
    }

    fn part(self, signals: u64) -> u32 {
        let part = signals.checked_shr(self.first).unwrap_or(0) & u64::from(self.whole());
        u32::try_from(part).unwrap_or(0)
    }

    fn half(self, cube: Cube) -> Half {
        Half {
            must: self.part(cube.must),
            not: self.part(cube.not),
        }
    }
}

impl Places {
    pub(crate) fn block(&self, cube: Cube) -> Block {
        Block {
            read: self.reads.half(cube),
            written: self.writes.half(cube),
        }
    }
}

impl Half {
    fn fits(self, letter: u32) -> bool {
        self.must & letter == self.must && self.not & letter == 0
    }

    /// The least letter above this one that differs in a signal that counts. Those between them fit where it does.
    fn behind(self, letter: u32) -> Option<u32> {
        let low = (self.must | self.not).trailing_zeros();
        letter
            .checked_shr(low)?
            .checked_add(1)?
            .checked_mul(2u32.checked_pow(low)?)
    }
}

impl Steps {
    pub(crate) fn take(&mut self, steps: usize) {
        self.left = self.left.saturating_sub(steps as u64);
    }
}

/// The written parts of those conditions that fit what is read.
pub(crate) fn blocked_at(
    alloc: Global,
    blocks: &[Block],
    read: u32,
) -> Result<Vec<Half>, AllocError> {
    let mut blocked = Vec::new(alloc);
    for block in blocks {
        if block.read.fits(read) {
            blocked.push(block.written)?;
        }
    }
    Ok(blocked)
}

/// The least letter up to a last one that fits no condition. None where there is none, or there are no steps left.
pub(crate) fn least_free(
    blocked: &[Half],
    least: u32,
    last: u32,
    steps: &mut Steps,
) -> Option<u32> {
    let mut written = least;
    for _ in 0..last.saturating_add(1) {
        steps.take(blocked.len().saturating_add(1));
        let Some(half) = first_fit(blocked, written) else {
            return Some(written);
        };
        written = half.behind(written)?;
        if written > last || steps.left == 0 {
            return None;
        }
    }
    None
}

/// The first condition that a letter fits.
fn first_fit(blocked: &[Half], written: u32) -> Option<Half> {
    for half in blocked {
        if half.fits(written) {
            return Some(*half);
        }
    }
    None
}
