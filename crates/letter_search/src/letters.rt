//! The letters over which a size is searched.
use solved_text::{LetterList, Letters};
use std::alloc::{AllocError, Global};

/// From so many read signals on a size begins with few letters.
const MANY_SIGNALS: u32 = 4;

/// Some more letters join those of a size in at most so many rounds, before all letters do.
pub(crate) const MOST_ROUNDS: u32 = 4;

/// The most signals that a side reads.
const MOST_SIGNALS: u32 = 16;

/// Which letters are chosen.
#[derive(Clone, Copy, PartialEq, Eq)]
pub(crate) enum Choice {
    /// Those with which a size begins.
    First,
    /// Some more, in so many rounds.
    Joined(u32),
    All,
}

/// Letters by rising number.
#[derive(Drop)]
pub(crate) struct Chosen {
    pub(crate) letters: Vec<u32>,
    pub(crate) choice: Choice,
}

impl Chosen {
    /// All letters of so many signals.
    pub(crate) fn all(alloc: Global, reads: u32) -> Result<Chosen, AllocError> {
        let mut letters = Vec::new(alloc);
        for letter in 0..letter_count(reads) {
            letters.push(letter)?;
        }
        Ok(Chosen {
            letters,
            choice: Choice::All,
        })
    }

    /// The letters with which a size begins: the one without signals, each signal alone, and all of them at once; all letters where few signals
    /// are read.
    pub(crate) fn first(alloc: Global, reads: u32) -> Result<Chosen, AllocError> {
        if reads < MANY_SIGNALS || reads > MOST_SIGNALS {
            return Chosen::all(alloc, reads);
        }
        let mut letters = Vec::new(alloc);
        letters.push(0)?;
        for signal in 0..reads {
            letters.push(letter_count(signal))?;
        }
        letters.push(letter_count(reads).saturating_sub(1))?;
        Ok(Chosen {
            letters,
            choice: Choice::First,
        })
    }

    /// How many letters join these where they leave gaps: twice as many each time. None where all letters come next, since enough joined or
    /// most are here.
    pub(crate) fn joining(&self, reads: u32) -> Option<usize> {
        let round = self.next_round();
        if self.choice == Choice::All || round > MOST_ROUNDS {
            return None;
        }
        let more = 2usize.saturating_pow(round);
        let together = self.letters.len().saturating_add(more);
        if together.saturating_mul(4) > (letter_count(reads) as usize).saturating_mul(3) {
            return None;
        }
        Some(more)
    }

    fn next_round(&self) -> u32 {
        match self.choice {
            Choice::Joined(round) => round.saturating_add(1),
            Choice::First | Choice::All => 1,
        }
    }

    /// The letters that come behind these, where they left gaps at others, of which the first join: some more, and in the end all.
    pub(crate) fn next(
        &self,
        alloc: Global,
        reads: u32,
        gaps: &[u32],
    ) -> Result<Chosen, AllocError> {
        match self.joining(reads) {
            Some(count) => {
                let (more, _others) = gaps.split_at(count.min(gaps.len()));
                self.joined(alloc, reads, more)
            }
            None => Chosen::all(alloc, reads),
        }
    }

    fn joined(&self, alloc: Global, reads: u32, more: &[u32]) -> Result<Chosen, AllocError> {
        let mut letters = Vec::new(alloc);
        for letter in 0..letter_count(reads) {
            if self.letters.contains(&letter) || more.contains(&letter) {
                letters.push(letter)?;
            }
        }
        Ok(Chosen {
            letters,
            choice: Choice::Joined(self.next_round()),
        })
    }

    /// As a log's head has them.
    pub(crate) fn into_letters(self) -> Letters {
        match self.choice {
            Choice::All => Letters::All,
            Choice::First | Choice::Joined(_) => Letters::Few(LetterList::new(self.letters)),
        }
    }
}

/// The number of letters of so many signals.
pub(crate) fn letter_count(signals: u32) -> u32 {
    2u32.saturating_pow(signals.min(MOST_SIGNALS))
}
