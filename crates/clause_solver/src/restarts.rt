ghost use Rattle.std.specs.Prelude.{◌<◌};

use refutation_log::Entry;
use unit_propagate::Trail;

/// The least number of conflicts between two restarts.
const LEAST: u64 = 50;

/// The mean of so many learnt clauses tells how the search goes now, and that of so many how it went before.
const NOW: u64 = 32;

const BEFORE: u64 = 4096;

/// A restart is due where the first mean is more than so many hundredths of the second.
const ASTRAY: u64 = 115;

/// When a search begins anew: where the clauses that were learnt last have more levels than those before, which tells that it has gone
/// astray (Audemard and Simon).
#[derive(Debug, Drop)]
pub struct Restarts {
    conflicts: u64,
    learnt: u64,
    now: u64,
    before: u64,
}

/// The number of levels of a clause's literals, of which those that are the same modulo 512 aren't told apart.
pub(crate) fn levels_in(trail: &Trail, entry: &Entry) -> u32 {
    let mut seen: [u64; 8] = [0; 8];
    let mut count: u32 = 0;
    for lit in entry.clause.lits() {
        let level = level_of(trail, lit.var());
        let word = (level / 64 % 8) as usize;
        let bit: u64 = 1 << (level % 64);
        if seen[word] & bit == 0 {
            seen[word] |= bit;
            count = count.saturating_add(1);
        }
    }
    count
}

/// The level of a variable's value, or 0.
fn level_of(trail: &Trail, var: u32) -> u32 {
    match trail.place(var) {
        Some(place) if place < trail.len() => trail.at(place).1,
        _ => 0,
    }
}

/// A mean of the last numbers, which goes towards a further one by one part of so many.
fn towards(mean: u64, number: u64, parts: u64) -> u64
    requires { 0 < parts }
{
    (mean - mean / parts).saturating_add(number / parts)
}

impl Restarts {
    pub fn new() -> Restarts {
        Restarts {
            conflicts: 0,
            learnt: 0,
            now: 0,
            before: 0,
        }
    }

    /// Counts a conflict, of which a clause of so many levels was learnt.
    pub fn count(&mut self, levels: u32) {
        self.conflicts = self.conflicts.saturating_add(1);
        self.learnt = self.learnt.saturating_add(1);
        // The means count in 2^20ths of a level.
        let number = u64::from(levels) << 20;
        self.now = towards(self.now, number, self.learnt.clamp(1, NOW));
        self.before = towards(self.before, number, self.learnt.clamp(1, BEFORE));
    }

    /// Whether a restart is due, which is then taken as done.
    pub fn take(&mut self) -> bool {
        if self.conflicts < LEAST {
            return false;
        }
        if self.now.saturating_mul(100) <= self.before.saturating_mul(ASTRAY) {
            return false;
        }
        self.conflicts = 0;
        true
    }
}
