ghost use Rattle.std.specs.Prelude.{◌≡◌, ℕ, ◌<◌, ◌≤◌, ◌⊎◌, ◌++◌, ◌∷◌, [], List, true, Some, All, Contains, length, slice_get, IfSome, IfNone, IfOk, OnOk, OnErr};
ghost use Rattle.propositional_logic.specs.Literal.{Literal, negated};
ghost use Rattle.propositional_logic.specs.Partial.{is_falsified};
ghost use Rattle.refutation_log.specs.Entry.{clauses_of};
ghost use Rattle.refutation_log.specs.Follows.{clause_named};
ghost use Rattle.unit_propagate.specs.declared.marks.Mark.{Mark};
ghost use Rattle.unit_propagate.specs.Trail.{IsFree, IsTrail, literals_of};
ghost use Rattle.unit_propagate.specs.Sound.{AreSoundMarks};
ghost use Rattle.conflict_learn.specs.Learnt.{level_in, clause_level};
ghost use Rattle.conflict_learn.specs.Analysis.{HasFalsifier, FalsifiesOne, AreUpTo, IsResolved, IsLeft, IsAnalysis, Resolves, AddsFalsifier};

use crate::implications::Implications;
use crate::places::Places;
use propositional_logic::{Cnf, Lit};
use refutation_log::Entry;
use std::alloc::{AllocError, Global};
use unit_propagate::{Trail, clause_at};

/// The place of the literal that makes a literal false; none where nothing does.
fn falsifier(trail: &Trail, lit: Lit) -> Option<usize>
    ensures some { IfSome result (λ place. (m : Mark) × (slice_get trail.now.marks place ≡ Some m) × (m.lit ≡ negated lit)) }
    ensures none { IfNone result (Contains (literals_of trail.now.marks) (negated lit) → ⊥) }
{
    let place = trail.place(lit.var())?;
    let (other, _level, _reason) = trail.at(place);
    if other == lit { None } else { Some(place) }
}

/// Adds the place of the literal that makes one false, if there is one.
fn add_falsifier(trail: &Trail, lit: Lit, places: &mut Places) -> Result<(), AllocError>
    ensures ok { OnOk result (AddsFalsifier trail.now.marks places.old places.new lit) }
    ensures err { OnErr result (places.new ≡ places.old) }
{
    let Some(place) = falsifier(trail, lit) else {
        return Ok(());
    };
    places.add(place)?;
    Ok(())
}

/// Adds the places of the literals that make those of a clause false.
fn add_falsifiers(trail: &Trail, lits: &[Lit], places: &mut Places) -> Result<(), AllocError>
    ensures keeps { (q : ℕ) → Contains places.old q → Contains places.new q }
    ensures all { OnOk result ((l : Literal) → Contains lits.now l → Contains (literals_of trail.now.marks) (negated l) → HasFalsifier trail.now.marks places.new l) }
    ensures only { (q : ℕ) → Contains places.new q → Contains places.old q ⊎ FalsifiesOne trail.now.marks lits.now q }
{
    for lit in lits {
        add_falsifier(trail, *lit, places)?;
    }
    Ok(())
}

/// The level at which a variable got its value; 0 where it has none.
fn level_of(trail: &Trail, var: u32) -> u32
    ensures { result ≡ level_in trail.now.marks var }
{
    match trail.place(var) {
        Some(place) => trail.at(place).1,
        None => 0,
    }
}

/// The highest level that a literal of a clause has.
pub fn highest_level(trail: &Trail, lits: &[Lit]) -> u32
    ensures { result ≡ clause_level trail.now.marks lits.now }
{
    let mut top = 0;
    for lit in lits {
        top = top.max(level_of(trail, lit.var()));
    }
    top
}

/// The reason of the literal at a place, where it is resolved: at level 0, below the highest level of the conflict where it is implied, and
/// on that level as long as another place of it is to come.
fn resolvent(trail: &Trail, places: &Places, place: usize, top: u32, implied: bool) -> Option<u64>
    requires here { place < length trail.now.marks }
    requires low { All (λ q. q < place) places.now }
    requires levels { AreUpTo trail.now.marks top places.now }
    requires trail { IsTrail trail.now.vars trail.now.marks }
    ensures some { IfSome result (IsResolved trail.now.marks places.now place top) }
    ensures none { IfNone result ((clauses : List (List Literal)) → AreSoundMarks clauses trail.now.marks → IsLeft trail.now.marks places.now place top) }
{
    let (_lit, level, reason) = trail.at(place);
    if level == 0 {
        return reason;
    }
    if implied && level < top {
        return reason;
    }
    if level != top {
        return None;
    }
    let Some(next) = places.last() else {
        return None;
    };
    if trail.at(next).1 != top {
        return None;
    }
    reason
}

/// What is known of a conflict: the places on the trail that are still to be looked at, the literals of the clause to be learnt, and
/// the clauses that were resolved, in this order.
#[derive(Debug, Drop)]
pub struct Analysis {
    pub places: Places,
    pub lits: Vec<Lit>,
    pub hints: Vec<u64>,
}

impl Analysis {
    /// What is known of the falsified clause of that number, whose literals these are.
    pub fn new(
        alloc: Global,
        trail: &Trail,
        lits: &[Lit],
        number: u64,
    ) -> Result<Analysis, AllocError>
        ensures { IfOk result (λ a. (vars : ℕ) (clauses : List (List Literal)) → IsTrail vars trail.now.marks → clause_named clauses number ≡ Some lits.now → is_falsified (literals_of trail.now.marks) lits.now ≡ true
            → IsAnalysis clauses trail.now.marks (clause_level trail.now.marks lits.now) (length trail.now.marks) a.places a.lits.items a.hints.items) }
    {
        let mut places = Places::new(alloc);
        add_falsifiers(trail, lits, &mut places)?;
        let mut hints = Vec::new(alloc);
        hints.push(number)?;
        let lits = Vec::new(alloc);
        Ok(Analysis {
            places,
            lits,
            hints,
        })
    }

    /// Looks at the last place, which was taken off: keeps its literal, or resolves it by its reason.
    fn step(
        &mut self,
        base: &Cnf,
        seen: &[Entry],
        trail: &Trail,
        place: usize,
        top: u32,
        implied: bool,
    ) -> Result<(), AllocError>
        requires here { place < length trail.now.marks }
        requires low { All (λ q. q < place) self.old.places }
        requires levels { AreUpTo trail.now.marks top self.old.places }
        requires trail { IsTrail trail.now.vars trail.now.marks }
        requires sound { AreSoundMarks (base.now.clauses.items ++ clauses_of seen.now) trail.now.marks }
        ensures { OnOk result ((bound : ℕ) → IsAnalysis (base.now.clauses.items ++ clauses_of seen.now) trail.now.marks top bound (self.old.places ++ place ∷ []) self.old.lits.items self.old.hints.items
            → IsAnalysis (base.now.clauses.items ++ clauses_of seen.now) trail.now.marks top place self.new.places self.new.lits.items self.new.hints.items) }
    {
        match resolvent(trail, &self.places, place, top, implied) {
            Some(reason) => self.resolve(base, seen, trail, place, reason),
            None => self.keep(trail, place),
        }
    }

    /// Keeps the opposite of the literal at a place.
    fn keep(&mut self, trail: &Trail, place: usize) -> Result<(), AllocError>
        requires { place < length trail.now.marks }
        ensures lits { OnOk result ((m : Mark) × (slice_get trail.now.marks place ≡ Some m) × (self.new.lits.items ≡ self.old.lits.items ++ negated m.lit ∷ [])) }
        ensures places { self.new.places ≡ self.old.places }
        ensures hints { self.new.hints ≡ self.old.hints }
    {
        let lit = trail.at(place).0.negated();
        self.lits.push(lit)?;
        Ok(())
    }

    /// Resolves the literal at a place by its reason.
    fn resolve(
        &mut self,
        base: &Cnf,
        seen: &[Entry],
        trail: &Trail,
        place: usize,
        reason: u64,
    ) -> Result<(), AllocError>
        requires sound { AreSoundMarks (base.now.clauses.items ++ clauses_of seen.now) trail.now.marks }
        requires there { (m : Mark) × (slice_get trail.now.marks place ≡ Some m) × (m.reason ≡ Some reason) }
        ensures resolves { OnOk result (Resolves (base.now.clauses.items ++ clauses_of seen.now) trail.now.marks self.old.places self.new.places reason) }
        ensures lits { self.new.lits ≡ self.old.lits }
        ensures hints { OnOk result (self.new.hints.items ≡ self.old.hints.items ++ reason ∷ []) }
    {
        let clause = clause_at(base, seen, reason as usize - 1);
        add_falsifiers(trail, clause.lits(), &mut self.places)?;
        self.hints.push(reason)?;
        Ok(())
    }

    /// Looks at all places.
    pub fn finish(
        &mut self,
        alloc: Global,
        base: &Cnf,
        seen: &[Entry],
        trail: &Trail,
        end: usize,
        top: u32,
    ) -> Result<(), AllocError>
        requires all { end ≡ length trail.now.marks }
        requires trail { IsTrail trail.now.vars trail.now.marks }
        requires sound { AreSoundMarks (base.now.clauses.items ++ clauses_of seen.now) trail.now.marks }
        requires known { IsAnalysis (base.now.clauses.items ++ clauses_of seen.now) trail.now.marks top (length trail.now.marks) self.old.places self.old.lits.items self.old.hints.items }
        ensures { OnOk result ((bound : ℕ) × IsAnalysis (base.now.clauses.items ++ clauses_of seen.now) trail.now.marks top bound [] self.new.lits.items self.new.hints.items) }
    {
        let mut implications = Implications::new(alloc, base, seen, trail, top)?;
        let mut bound = end;
        while let Some(place) = self.places.take_last() {
            prove!(place < bound);
            let implied = implications.imply(&self.places, place)?;
            self.step(base, seen, trail, place, top, implied)?;
            bound = place;
        }
        Ok(())
    }
}
