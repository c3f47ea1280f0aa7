use diagnostics::{SizeTurns, batch_line, progress_line};
use input_output::{Gate, Moment};
use letters_and_lassos::Side;
use std::alloc::{AllocError, Global};
use std::io;
use std::rt::Clock;
use std::sync::atomic::{AtomicBool, AtomicU64, Ordering};
use std::time::Instant;

/// The logs of sizes 1 to 16 of both sides have numbers below this.
const LOGS: usize = 34;

/// The most texts of a batch.
const TEXTS: usize = 64;

/// What is counted at one log, or, where many texts are answered, at one text: it has one turn once it is taken, and one entry once it is
/// answered.
#[derive(Drop)]
struct Counts {
    turns: AtomicU64,
    /// The turns of which the last line told.
    told: AtomicU64,
    entries: AtomicU64,
}

/// A gate that holds nobody back, and remembers that somebody passed. Where lines are wanted it counts the turns and entries at each
/// log, or which texts of a batch are taken and answered, and whoever passes first after a second has gone by writes one to standard error.
#[derive(Drop)]
pub struct CountingGate<'a, 'b, R: Clock + Eprint> {
    rt: &'a R,
    alloc: Global,
    start: Option<Instant>,
    /// The most entries of a log, as far as lines tell of them.
    limit: Option<u64>,
    /// How many files were taken, where they are a list and the texts of a batch.
    batch: Option<&'b AtomicU64>,
    /// How many seconds have been told of.
    told: AtomicU64,
    is_passed: AtomicBool,
    /// By the numbers of the logs.
    counts: Vec<Counts>,
}

impl<'a, 'b, R: Clock + Eprint> CountingGate<'a, 'b, R> {
    /// Where lines aren't wanted, or there is no clock, nothing is counted.
    pub fn new(
        rt: &'a R,
        alloc: Global,
        is_wanted: bool,
        limit: Option<u64>,
        batch: Option<&'b AtomicU64>,
    ) -> Result<CountingGate<'a, 'b, R>, AllocError> {
        let places = if batch.is_some() { TEXTS } else { LOGS };
        let mut counts = Vec::with_capacity(alloc, places)?;
        for _ in 0..places {
            counts.push(Counts {
                turns: AtomicU64::new(0),
                told: AtomicU64::new(0),
                entries: AtomicU64::new(0),
            })?;
        }
        let start = if is_wanted {
            Instant::now(rt).ok()
        } else {
            None
        };
        Ok(CountingGate {
            rt,
            alloc,
            start,
            limit,
            batch,
            told: AtomicU64::new(0),
            is_passed: AtomicBool::new(false),
            counts,
        })
    }

    /// Whether a worker passed.
    pub(crate) fn is_passed(&self) -> bool {
        self.is_passed.load(Ordering::SeqCst)
    }

    /// The number of seconds that have gone by, where nobody has told of the last one.
    fn due_second(&self) -> Option<u64> {
        let gone = self.start?.elapsed(self.rt).ok()?;
        let seconds = gone.as_secs();
        let told = self.told.load(Ordering::SeqCst);
        if seconds <= told {
            return None;
        }
        self.told
            .compare_exchange(told, seconds, Ordering::SeqCst, Ordering::SeqCst)
            .ok()?;
        Some(seconds)
    }

    /// Writes the line.
    fn tell(&self, seconds: u64) -> io::Result<()> {
        let line = match self.batch {
            Some(files) => self.line_of_texts(seconds, files)?,
            None => self.line_of_logs(seconds)?,
        };
        self.rt.eprint(line.as_str())
    }

    /// The line on the texts of a batch, which are the files that were taken but the list.
    fn line_of_texts(&self, seconds: u64, files: &AtomicU64) -> Result<String, AllocError> {
        let texts = files.load(Ordering::SeqCst).saturating_sub(1);
        let mut answered = 0usize;
        let mut at_work = Vec::new(self.alloc);
        for (place, counts) in (1usize..usize::MAX).zip(&self.counts) {
            if counts.entries.load(Ordering::SeqCst) > 0 {
                answered = answered.saturating_add(1);
            } else if counts.turns.load(Ordering::SeqCst) > 0 && place as u64 <= texts {
                at_work.push(place)?;
            }
        }
        batch_line(self.alloc, seconds, answered, texts, &at_work)
    }

    fn line_of_logs(&self, seconds: u64) -> Result<String, AllocError> {
        let mut sizes = Vec::new(self.alloc);
        for (log, counts) in self.counts.iter().enumerate() {
            let all = counts.turns.load(Ordering::SeqCst);
            let told = counts.told.swap(all, Ordering::SeqCst);
            if all > 0 {
                sizes.push(SizeTurns {
                    side: side_of(log),
                    size: log / 2,
                    all,
                    last: all.saturating_sub(told),
                    entries: counts.entries.load(Ordering::SeqCst),
                })?;
            }
        }
        progress_line(self.alloc, seconds, &sizes, self.limit)
    }
}

/// The side of a log.
fn side_of(log: usize) -> Side {
    if log % 2 == 0 {
        Side::System
    } else {
        Side::Environment
    }
}

impl<'a, 'b, R: Clock + Eprint> Gate for CountingGate<'a, 'b, R> {
    fn pass(&self, _worker: u32, log: u32, moment: Moment) {
        self.is_passed.store(true, Ordering::SeqCst);
        if self.start.is_none() {
            return;
        }
        if let Some(counts) = self.counts.get(log as usize) {
            match moment {
                Moment::BeforeAppend => return,
                Moment::AfterAppend => counts.entries.fetch_add(1, Ordering::SeqCst),
                Moment::AfterRead => counts.turns.fetch_add(1, Ordering::SeqCst),
            };
        }
        if let Some(seconds) = self.due_second() {
            let _ = self.tell(seconds);
        }
    }
}
