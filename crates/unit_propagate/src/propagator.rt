ghost use Rattle.std.specs.Prelude.{◌≡◌, ◌≢◌, ℕ, ◌+◌, ◌*◌, ◌<◌, ◌≤◌, ◌^◌, ◌⊎◌, true, false, List, [], ◌∷◌, ◌++◌, None, Some, Ok, All, Contains, length, filter, nat_le, slice_get, IfOk, IfSome, IfNone, OnOk, OnErr};
ghost use Rattle.std.specs.Bool.{OnTrue, OnFalse};
ghost use Rattle.propositional_logic.specs.Literal.{Literal, negated};
ghost use Rattle.propositional_logic.specs.Clause.{IsClause, IsWithinVariables};
ghost use Rattle.refutation_log.specs.Follows.{is_falsified_named};
ghost use Rattle.unit_propagate.specs.declared.marks.Mark.{Mark};
ghost use Rattle.unit_propagate.specs.declared.rows.Watcher.{Watcher};
ghost use Rattle.unit_propagate.specs.declared.propagator.Step.TheVariants.{Kept, Gone, Conflict};
ghost use Rattle.unit_propagate.specs.Trail.{IsTrail, highest_level, literals_of};
ghost use Rattle.unit_propagate.specs.Quiet.{IsQuiet};
ghost use Rattle.unit_propagate.specs.Watched.{IsWatched};
ghost use Rattle.unit_propagate.specs.Watches.{IsFalsifier, IsSide};

use crate::clauses::{clause_at, clause_count};
use crate::marks::Marks;
use crate::watches::Watches;
use propositional_logic::{Clause, Cnf, Lit};
use refutation_log::Entry;
use std::alloc::{AllocError, Global};

/// A literal of a clause that isn't false.
fn unfalsified(marks: &Marks, lits: &[Lit]) -> Option<Lit>
    ensures some { IfSome result (λ l. Contains lits.now l × (Contains (literals_of marks.now.marks) (negated l) → ⊥)) }
    ensures none { IfNone result (All (λ l. Contains (literals_of marks.now.marks) (negated l)) lits.now) }
{
    for lit in lits {
        if !marks.is_false(*lit) {
            return Some(*lit);
        }
    }
    None
}

/// Whether a literal isn't false, and isn't a given one.
fn is_open(marks: &Marks, lit: Lit, except: Lit) -> bool
    ensures yes { OnTrue result ((lit ≢ except) × (Contains (literals_of marks.now.marks) (negated lit) → ⊥)) }
    ensures no { OnFalse result (lit ≢ except → Contains (literals_of marks.now.marks) (negated lit)) }
{
    if lit == except {
        return false;
    }
    !marks.is_false(lit)
}

/// A literal of a clause that isn't false, and isn't a given one.
fn other_unfalsified(marks: &Marks, lits: &[Lit], except: Lit) -> Option<Lit>
    ensures some { IfSome result (λ l. Contains lits.now l × (l ≢ except) × (Contains (literals_of marks.now.marks) (negated l) → ⊥)) }
    ensures none { IfNone result (All (λ l. l ≢ except → Contains (literals_of marks.now.marks) (negated l)) lits.now) }
{
    for lit in lits {
        if is_open(marks, *lit, except) {
            return Some(*lit);
        }
    }
    None
}

/// The place on the trail of the literal that makes a literal false, unless it is a given one.
fn falsifier(marks: &Marks, lit: Lit, except: Lit) -> Option<usize>
    requires { lit ≢ except → Contains (literals_of marks.now.marks) (negated lit) }
    ensures some { IfSome result (λ place. (m : Mark) × (slice_get marks.now.marks place ≡ Some m) × (m.lit ≡ negated lit) × (lit ≢ except)) }
    ensures none { IfNone result (lit ≡ except) }
{
    if lit == except {
        return None;
    }
    Some(marks.slot(lit.var())?.place)
}

/// The later of two places.
fn later(a: Option<usize>, b: Option<usize>) -> Option<usize>
    ensures either { (result ≡ a) ⊎ (result ≡ b) }
    ensures none { result ≡ None → (a ≡ None) × (b ≡ None) }
{
    match (a, b) {
        (Some(x), Some(y)) if x < y => b,
        (None, _) => b,
        _ => a,
    }
}

/// The last place on the trail of a literal that makes one of a clause false, but for a given one.
fn last_falsified(marks: &Marks, lits: &[Lit], except: Lit) -> Option<usize>
    requires { All (λ l. l ≢ except → Contains (literals_of marks.now.marks) (negated l)) lits.now }
    ensures some { IfSome result (IsFalsifier marks.now.marks lits.now except) }
    ensures none { IfNone result (All (λ l. l ≡ except) lits.now) }
{
    let mut last = None;
    for lit in lits {
        last = later(last, falsifier(marks, *lit, except));
    }
    last
}

/// The place of a literal among the first two of a clause, and the other one of them.
#[derive(Clone, Copy, Debug)]
struct Side {
    place: usize,
    other: Lit,
}

/// Where a literal stands among the first two of a clause.
fn side_of(lits: &[Lit], lit: Lit) -> Option<Side>
    ensures some { IfSome result (λ side. IsSide lits.now lit side.place side.other) }
    ensures none { IfNone result (IsWatched lits.now lit → ⊥) }
{
    match lits {
        [first, second, ..] => {
            if *first == lit {
                return Some(Side {
                    place: 0,
                    other: *second,
                });
            }
            if *second == lit {
                return Some(Side {
                    place: 1,
                    other: *first,
                });
            }
            None
        }
        _ => None,
    }
}

/// A literal of a clause, with its place.
#[derive(Clone, Copy, Debug)]
struct Placed {
    place: usize,
    lit: Lit,
}

/// A literal of a clause that isn't false, from the third on.
fn open_literal(marks: &Marks, lits: &[Lit]) -> Option<Placed>
    ensures some { IfSome result (λ found. (2 ≤ found.place) × (slice_get lits.now found.place ≡ Some found.lit) × (Contains (literals_of marks.now.marks) (negated found.lit) → ⊥)) }
    ensures none { IfNone result ((j : ℕ) (l : Literal) → 2 ≤ j → slice_get lits.now j ≡ Some l → Contains (literals_of marks.now.marks) (negated l)) }
{
    for place in 2..lits.len() {
        let lit = lits[place];
        if !marks.is_false(lit) {
            return Some(Placed { place, lit });
        }
    }
    None
}

/// How the look at a clause that watches a false literal ended.
#[derive(Clone, Copy, Debug)]
enum Step {
    /// Some literal of the clause is true, and it stays in the list.
    Kept,
    /// The clause leaves the list.
    Gone,
    /// All of its literals are false.
    Conflict,
}

/// How far the list of a literal that became false was looked at: the watchers before `kept` stay, and those from `place` on are to come.
#[derive(Debug, Drop)]
struct Looked {
    kept: usize,
    place: usize,
    end: Result<Option<u64>, AllocError>,
}

/// A trail with what it watches, and how far it was looked at.
#[derive(Debug, Drop)]
pub struct Propagator {
    pub marks: Marks,
    pub watches: Watches,
    /// The literals before this place were looked at.
    pub place: usize,
    /// Those before this place were looked at while their level was the highest, so that going back to a level leaves them looked at.
    pub kept: usize,
    /// So many clauses of one literal are true on level 0.
    pub done: usize,
}

impl Propagator {
    ghost use Rattle.unit_propagate.specs.declared.propagator.Propagator.{Propagator};
    ghost use Rattle.unit_propagate.specs.Sound.{IsReason};
    ghost use Rattle.unit_propagate.specs.Watched.{IsWatching};
    ghost use Rattle.propositional_logic.specs.Codes.{code_of};
    ghost use Rattle.unit_propagate.specs.Rows.{row_at};
    ghost use Rattle.unit_propagate.specs.Propagator.{clauses_in, IsKeptPropagator, IsVisiting, IsVisited, Goes, Stays, AreUnitsTrue};

    /// An empty trail, which watches nothing.
    pub fn new(alloc: Global, vars: u32) -> Result<Propagator, AllocError>
        ensures kept { IfOk result IsKeptPropagator }
        ensures marks { IfOk result (λ s. s.marks ≡ record { vars = vars; marks = [] }) }
        ensures watches { IfOk result (λ s. s.watches.watched ≡ []) }
        ensures place { IfOk result (λ s. s.place ≡ 0) }
    {
        Ok(Propagator {
            marks: Marks::new(alloc, vars)?,
            watches: Watches::new(alloc, vars.min(1 << 30) as usize + 1)?,
            place: 0,
            kept: 0,
            done: 0,
        })
    }

    /// Watches the clauses that are new. Answers the number of one that is falsified.
    fn watch_new(&mut self, base: &Cnf, seen: &[Entry]) -> Result<Option<u64>, AllocError>
        requires within { All (IsWithinVariables self.old.marks.vars) (clauses_in base.now seen.now) }
        requires kept { IsKeptPropagator self.old }
        requires watching { IsWatching (clauses_in base.now seen.now) self.old.watches.watched }
        ensures all { result ≡ Ok None → length (clauses_in base.now seen.now) ≤ length self.new.watches.watched }
        ensures falsified { (n : ℕ) → result ≡ Ok (Some n) → is_falsified_named (clauses_in base.now seen.now) (literals_of self.new.marks.marks) n ≡ true }
        ensures goes { Goes (clauses_in base.now seen.now) self.old self.new }
    {
        while self.watches.len() < clause_count(base, seen) {
            if !self.watch_next(base, seen)? {
                return Ok(Some(self.watches.len() as u64 + 1));
            }
        }
        Ok(None)
    }

    /// Watches the next clause, unless it is falsified.
    fn watch_next(&mut self, base: &Cnf, seen: &[Entry]) -> Result<bool, AllocError>
        requires more { length self.old.watches.watched < length (clauses_in base.now seen.now) }
        requires within { All (IsWithinVariables self.old.marks.vars) (clauses_in base.now seen.now) }
        requires kept { IsKeptPropagator self.old }
        requires watching { IsWatching (clauses_in base.now seen.now) self.old.watches.watched }
        ensures watched { result ≡ Ok true → length self.new.watches.watched ≡ length self.old.watches.watched + 1 }
        ensures falsified { result ≡ Ok false → is_falsified_named (clauses_in base.now seen.now) (literals_of self.new.marks.marks) (length self.new.watches.watched + 1) ≡ true }
        ensures goes { Goes (clauses_in base.now seen.now) self.old self.new }
    {
        let clause = clause_at(base, seen, self.watches.len());
        let Some(first) = unfalsified(&self.marks, clause.lits()) else {
            return Ok(false);
        };
        match other_unfalsified(&self.marks, clause.lits(), first) {
            Some(second) => self.watches.add(clause.lits(), first, second)?,
            None => self.watch_forced(clause, first)?,
        }
        Ok(true)
    }

    /// Watches the next clause, of which all literals but one are false.
    fn watch_forced(&mut self, clause: &Clause, first: Lit) -> Result<(), AllocError>
        requires sorted { IsClause clause.now }
        requires member { Contains clause.now first }
        requires within { IsWithinVariables self.old.marks.vars clause.now }
        requires others { All (λ l. l ≢ first → Contains (literals_of self.old.marks.marks) (negated l)) clause.now }
        requires alive { Contains (literals_of self.old.marks.marks) (negated first) → ⊥ }
        requires kept { IsKeptPropagator self.old }
        ensures ok { OnOk result (length self.new.watches.watched ≡ length self.old.watches.watched + 1) }
        ensures goes { (clauses : List (List Literal)) → IsWatching clauses self.old.watches.watched → slice_get clauses (length self.old.watches.watched) ≡ Some clause.now → Goes clauses self.old self.new }
    {
        let Some(place) = last_falsified(&self.marks, clause.lits(), first) else {
            return self.watches.add_alone(first);
        };
        let number = self.watches.len() as u64 + 1;
        self.make_true(first, number);
        self.lower(place);
        let second = self.marks.at(place).lit.negated();
        self.watches.add(clause.lits(), first, second)
    }

    /// Makes a literal true that isn't false, by the clause of that number.
    fn make_true(&mut self, lit: Lit, number: u64)
        requires within { lit.var ≤ self.old.marks.vars }
        requires alive { Contains (literals_of self.old.marks.marks) (negated lit) → ⊥ }
        ensures now_true { Contains (literals_of self.new.marks.marks) lit }
        ensures others { self.new ≡ record self.old { marks = self.new.marks } }
        ensures grown { (more : List Mark) × (self.new.marks.marks ≡ self.old.marks.marks ++ more) }
        ensures goes { (clauses : List (List Literal)) → IsKeptPropagator self.old → IsWatching clauses self.old.watches.watched → IsReason clauses number (literals_of self.old.marks.marks) lit → Goes clauses self.old self.new }
    {
        if self.marks.is_true(lit) {
            return;
        }
        let level = self.marks.level();
        self.marks.push(lit, level, Some(number));
    }

    /// Where the literal at a place is below the highest level, going back to a level takes it as not looked at.
    fn lower(&mut self, place: usize)
        requires { place < length self.old.marks.marks }
        ensures others { self.new ≡ record self.old { kept = self.new.kept } }
        ensures less { self.new.kept ≤ self.old.kept }
        ensures low { place < self.new.kept → (m : Mark) → slice_get self.old.marks.marks place ≡ Some m → highest_level self.old.marks.marks ≤ m.level }
        ensures trail { IsTrail self.old.marks.vars self.old.marks.marks }
    {
        let level = self.marks.at(place).level;
        if self.marks.level() <= level {
            return;
        }
        self.kept = self.kept.min(place);
    }

    /// Makes the literals of the clauses with one literal true. Answers the number of one that is falsified.
    fn force_units(&mut self, base: &Cnf, seen: &[Entry]) -> Option<u64>
        requires within { All (IsWithinVariables self.old.marks.vars) (clauses_in base.now seen.now) }
        requires kept { IsKeptPropagator self.old }
        requires watching { IsWatching (clauses_in base.now seen.now) self.old.watches.watched }
        ensures all { result ≡ None → AreUnitsTrue self.new }
        ensures falsified { IfSome result (λ n. is_falsified_named (clauses_in base.now seen.now) (literals_of self.new.marks.marks) n ≡ true) }
        ensures goes { Goes (clauses_in base.now seen.now) self.old self.new }
        ensures watches { self.new.watches ≡ self.old.watches }
    {
        for i in self.done..self.watches.units() {
            let k = self.watches.unit(i);
            if !self.force_unit(base, seen, k) {
                return Some(k as u64 + 1);
            }
        }
        if self.marks.level() == 0 {
            self.done = self.watches.units();
        }
        None
    }

    /// Makes the literal of a clause with one literal true, unless it is false.
    fn force_unit(&mut self, base: &Cnf, seen: &[Entry], k: usize) -> bool
        requires within { All (IsWithinVariables self.old.marks.vars) (clauses_in base.now seen.now) }
        requires kept { IsKeptPropagator self.old }
        requires watching { IsWatching (clauses_in base.now seen.now) self.old.watches.watched }
        requires alone { (l : Literal) × (slice_get self.old.watches.watched k ≡ Some (l ∷ [])) }
        ensures forced { OnTrue result ((l : Literal) → slice_get self.old.watches.watched k ≡ Some (l ∷ []) → Contains (literals_of self.new.marks.marks) l) }
        ensures falsified { OnFalse result (is_falsified_named (clauses_in base.now seen.now) (literals_of self.new.marks.marks) (k + 1) ≡ true) }
        ensures goes { Goes (clauses_in base.now seen.now) self.old self.new }
        ensures watches { self.new.watches ≡ self.old.watches }
        ensures done { self.new.done ≡ self.old.done }
        ensures small { k + 1 < 2 ^ 64 }
    {
        let lit = self.watches.single(k);
        if self.marks.is_false(lit) {
            return false;
        }
        if !self.marks.is_true(lit) {
            let level = self.marks.level();
            self.marks.push(lit, level, Some(k as u64 + 1));
        }
        true
    }

    /// Looks at a clause, which stands at place `i` of the list of a literal that became false. Where it stays in the list it goes to place
    /// `to`, with a literal that is true as its blocker.
    fn step(
        &mut self,
        base: &Cnf,
        seen: &[Entry],
        falsified: Lit,
        to: usize,
        i: usize,
        blocker: Lit,
    ) -> Result<Step, AllocError>
        requires within { All (IsWithinVariables self.old.marks.vars) (clauses_in base.now seen.now) }
        requires visiting { IsVisiting (clauses_in base.now seen.now) self.old falsified to i }
        requires fits { code_of falsified ≤ 2 * 2 ^ 30 + 1 → code_of falsified < length self.old.watches.rows }
        requires there { (x : Watcher) × (slice_get (row_at self.old.watches.rows (code_of falsified)) i ≡ Some x) × (x.blocker ≡ blocker) }
        ensures stays_there { result ≡ Ok Kept → IsVisiting (clauses_in base.now seen.now) self.new falsified (to + 1) (i + 1) }
        ensures gone { result ≡ Ok Gone → IsVisiting (clauses_in base.now seen.now) self.new falsified to (i + 1) }
        ensures conflict { result ≡ Ok Conflict → (x : Watcher) × (slice_get (row_at self.new.watches.rows (code_of falsified)) i ≡ Some x) × (is_falsified_named (clauses_in base.now seen.now) (literals_of self.new.marks.marks) (x.clause + 1) ≡ true) }
        ensures still { result ≡ Ok Conflict → self.new ≡ self.old }
        ensures err { OnErr result (self.new ≡ self.old) }
        ensures row { length (row_at self.new.watches.rows (code_of falsified)) ≡ length (row_at self.old.watches.rows (code_of falsified)) }
        ensures size { length self.new.watches.rows ≡ length self.old.watches.rows }
        ensures goes { Goes (clauses_in base.now seen.now) self.old self.new }
        ensures stays { Stays self.old self.new }
    {
        if self.marks.is_true(blocker) {
            self.watches.keep(falsified, to, i, blocker);
            return Ok(Step::Kept);
        }
        let lits = self.watches.watching(falsified, i);
        let Some(side) = side_of(lits, falsified) else {
            return Ok(Step::Gone);
        };
        let other = side.other;
        if self.marks.is_true(other) {
            self.watches.keep(falsified, to, i, other);
            return Ok(Step::Kept);
        }
        if let Some(open) = open_literal(&self.marks, lits) {
            self.watches
                .rewatch(i, side.place, open.place, falsified, open.lit, other)?;
            return Ok(Step::Gone);
        }
        if self.marks.is_false(other) {
            return Ok(Step::Conflict);
        }
        let number = self.watches.number(falsified, i);
        let level = self.marks.level();
        self.marks.push(other, level, Some(number as u64 + 1));
        self.watches.keep(falsified, to, i, other);
        Ok(Step::Kept)
    }

    /// Looks at each clause that watches a literal that became false, until one is falsified.
    fn look(&mut self, base: &Cnf, seen: &[Entry], falsified: Lit) -> Looked
        requires within { All (IsWithinVariables self.old.marks.vars) (clauses_in base.now seen.now) }
        requires visiting { IsVisiting (clauses_in base.now seen.now) self.old falsified 0 0 }
        requires fits { code_of falsified ≤ 2 * 2 ^ 30 + 1 → code_of falsified < length self.old.watches.rows }
        ensures visiting { IsVisiting (clauses_in base.now seen.now) self.new falsified result.kept result.place }
        ensures in_row { result.place ≤ length (row_at self.new.watches.rows (code_of falsified)) }
        ensures size { length self.new.watches.rows ≡ length self.old.watches.rows }
        ensures all { result.end ≡ Ok None → IsVisited self.new falsified }
        ensures falsified { (n : ℕ) → result.end ≡ Ok (Some n) → is_falsified_named (clauses_in base.now seen.now) (literals_of self.new.marks.marks) n ≡ true }
        ensures goes { Goes (clauses_in base.now seen.now) self.old self.new }
        ensures stays { Stays self.old self.new }
    {
        let mut kept = 0;
        let mut place = 0;
        while let Some(blocker) = self.watches.blocker(falsified, place) {
            let step = match self.step(base, seen, falsified, kept, place, blocker) {
                Ok(step) => step,
                Err(error) => {
                    return Looked {
                        kept,
                        place,
                        end: Err(error),
                    };
                }
            };
            match step {
                Step::Kept => {
                    kept += 1;
                    place += 1;
                }
                Step::Gone => place += 1,
                Step::Conflict => {
                    return Looked {
                        kept,
                        place,
                        end: Ok(Some(self.watches.number(falsified, place) as u64 + 1)),
                    };
                }
            }
        }
        Looked {
            kept,
            place,
            end: Ok(None),
        }
    }

    /// Looks at each clause that watches a literal that became false, and closes up what those that left its list leave open. Answers the
    /// number of one that is falsified.
    fn visit(
        &mut self,
        base: &Cnf,
        seen: &[Entry],
        falsified: Lit,
    ) -> Result<Option<u64>, AllocError>
        requires within { All (IsWithinVariables self.old.marks.vars) (clauses_in base.now seen.now) }
        requires visiting { IsVisiting (clauses_in base.now seen.now) self.old falsified 0 0 }
        requires fits { code_of falsified ≤ 2 * 2 ^ 30 + 1 → code_of falsified < length self.old.watches.rows }
        ensures all { result ≡ Ok None → IsVisited self.new falsified }
        ensures falsified { (n : ℕ) → result ≡ Ok (Some n) → is_falsified_named (clauses_in base.now seen.now) (literals_of self.new.marks.marks) n ≡ true }
        ensures goes { Goes (clauses_in base.now seen.now) self.old self.new }
        ensures stays { Stays self.old self.new }
    {
        let looked = self.look(base, seen, falsified);
        self.watches.cut(falsified, looked.kept, looked.place);
        looked.end
    }

    /// Looks at the next literal of the trail. Answers the number of a clause that is falsified.
    fn visit_next(&mut self, base: &Cnf, seen: &[Entry]) -> Result<Option<u64>, AllocError>
        requires next { self.old.place < length self.old.marks.marks }
        requires within { All (IsWithinVariables self.old.marks.vars) (clauses_in base.now seen.now) }
        requires kept { IsKeptPropagator self.old }
        requires watching { IsWatching (clauses_in base.now seen.now) self.old.watches.watched }
        ensures place { result ≡ Ok None → self.new.place ≡ self.old.place + 1 }
        ensures falsified { (n : ℕ) → result ≡ Ok (Some n) → is_falsified_named (clauses_in base.now seen.now) (literals_of self.new.marks.marks) n ≡ true }
        ensures goes { Goes (clauses_in base.now seen.now) self.old self.new }
        ensures units { AreUnitsTrue self.old → AreUnitsTrue self.new }
    {
        let mark = self.marks.at(self.place);
        if let Some(number) = self.visit(base, seen, mark.lit.negated())? {
            return Ok(Some(number));
        }
        self.kept = self.next_kept(mark.level);
        self.place += 1;
        Ok(None)
    }

    /// How far literals are looked at while their level is the highest, with the next one, which is of that level.
    fn next_kept(&self, level: u32) -> usize
        requires { self.now.place < length self.now.marks.marks }
        ensures value { (result ≡ self.now.kept) ⊎ ((result ≡ self.now.place + 1) × (self.now.kept ≡ self.now.place) × (level ≡ highest_level self.now.marks.marks)) }
        ensures small { self.now.place + 1 < 2 ^ 64 }
    {
        let top = self.marks.level();
        if self.kept != self.place {
            return self.kept;
        }
        if level != top {
            return self.kept;
        }
        self.place + 1
    }

    /// Adds the literals that clauses force, until none is forced or a clause is falsified. Answers its number.
    pub fn propagate(&mut self, base: &Cnf, seen: &[Entry]) -> Result<Option<u64>, AllocError>
        requires within { All (IsWithinVariables self.old.marks.vars) (clauses_in base.now seen.now) }
        requires kept { IsKeptPropagator self.old }
        requires watching { IsWatching (clauses_in base.now seen.now) self.old.watches.watched }
        ensures place { result ≡ Ok None → self.new.place ≡ length self.new.marks.marks }
        ensures quiet { result ≡ Ok None → IsQuiet (clauses_in base.now seen.now) (literals_of self.new.marks.marks) }
        ensures falsified { (n : ℕ) → result ≡ Ok (Some n) → is_falsified_named (clauses_in base.now seen.now) (literals_of self.new.marks.marks) n ≡ true }
        ensures goes { Goes (clauses_in base.now seen.now) self.old self.new }
    {
        if let Some(number) = self.watch_new(base, seen)? {
            return Ok(Some(number));
        }
        if let Some(number) = self.force_units(base, seen) {
            return Ok(Some(number));
        }
        while self.place < self.marks.len() {
            if let Some(number) = self.visit_next(base, seen)? {
                return Ok(Some(number));
            }
        }
        Ok(None)
    }

    /// Takes all literals above a level off.
    pub fn back_to(&mut self, level: u32)
        requires { IsKeptPropagator self.old }
        ensures kept { IsKeptPropagator self.new }
        ensures marks { self.new.marks ≡ record self.old.marks { marks = filter (λ m. nat_le m.level level) self.old.marks.marks } }
        ensures watches { self.new.watches ≡ self.old.watches }
        ensures place { self.new.place ≤ self.old.place }
    {
        self.marks.back_to(level);
        self.kept = self.kept.min(self.marks.len());
        self.place = self.kept;
    }

    /// Takes all literals off.
    pub fn clear(&mut self)
        requires { IsKeptPropagator self.old }
        ensures kept { IsKeptPropagator self.new }
        ensures marks { self.new.marks ≡ record self.old.marks { marks = [] } }
        ensures watches { self.new.watches ≡ self.old.watches }
        ensures place { self.new.place ≡ 0 }
    {
        self.marks.clear();
        self.kept = 0;
        self.place = 0;
        self.done = 0;
    }
}
