ghost use Rattle.std.specs.Prelude.{◌≡◌, ℕ, ◌<◌, ◌≤◌, false, All, Contains};
ghost use Rattle.propositional_logic.specs.Partial.{is_false_in};
ghost use Rattle.unit_propagate.specs.Trail.{literals_of};
ghost use Rattle.clause_solver.specs.Levels.{up_to, IsIdleBelow};

use propositional_logic::{Clause, Lit};
use refutation_log::Entry;
use unit_propagate::Trail;

/// From which level on a literal is false, and from which on it is true; the greatest number where it isn't.
#[derive(Clone, Copy, Debug)]
struct Levels {
    falsity: u32,
    truth: u32,
}

fn levels_of(trail: &Trail, lit: Lit) -> Levels
    ensures falsity { (level : ℕ) → level < result.falsity → is_false_in (literals_of (up_to level trail.now.marks)) lit ≡ false }
    ensures truth { (level : ℕ) → result.truth ≤ level → level < 4294967295 → Contains (literals_of (up_to level trail.now.marks)) lit × (is_false_in (literals_of (up_to level trail.now.marks)) lit ≡ false) }
{
    let Some(place) = trail.place(lit.var()) else {
        return Levels {
            falsity: u32::MAX,
            truth: u32::MAX,
        };
    };
    let (other, level, _reason) = trail.at(place);
    if other == lit {
        return Levels {
            falsity: u32::MAX,
            truth: level,
        };
    }
    Levels {
        falsity: level,
        truth: u32::MAX,
    }
}

/// A level below which a clause is idle: the second highest of those from which on its literals are false, since two of them aren't below
/// it. Where the clause is true from there on, it is idle on every level.
fn idle_level(trail: &Trail, clause: &Clause) -> u32
    ensures { IsIdleBelow result trail.now.marks clause.now }
{
    let mut highest: u32 = 0;
    let mut second: u32 = 0;
    let mut truth: u32 = u32::MAX;
    for lit in clause.lits() {
        let levels = levels_of(trail, *lit);
        truth = truth.min(levels.truth);
        second = second.max(levels.falsity.min(highest));
        highest = highest.max(levels.falsity);
    }
    if truth <= second { u32::MAX } else { second }
}

/// A level below which the clauses of all entries are idle. Costs their literals.
pub(crate) fn settled_level(trail: &Trail, entries: &[Entry]) -> u32
    ensures { All (λ e. IsIdleBelow result trail.now.marks e.clause) entries.now }
{
    let mut least = u32::MAX;
    for entry in entries {
        least = least.min(idle_level(trail, entry.clause.as_clause()));
    }
    least
}
