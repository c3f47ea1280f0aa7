//! The ranges of a big operator that are gone over, one inside the other. What is left of each stands in a list, so that the depth of
//! calls doesn't grow with the number of ranges.

ghost use Rattle.std.specs.Prelude.{◌≡◌, ◌+◌, ◌≤◌, ◌^◌, ◌∷◌, [], List, Some, None, IfErr, IfOk, IfSome, OnOk, drop, length, reverse};
ghost use Rattle.ltl_formula.specs.Nodes.{Grows};
ghost use Rattle.tlsf_syntax.specs.declared.expr.Range.{Range as TreeRange};
ghost use Rattle.tlsf_values.specs.Counts.{joined_with};
ghost use Rattle.tlsf_values.specs.LevelsSeen.{IsLess, IsOnward, after, inner_of, level_value, pending, turns};
ghost use Rattle.tlsf_values.specs.MembersSeen.{members_seen};
ghost use Rattle.tlsf_values.specs.Outcomes.{gives, go_on};
ghost use Rattle.tlsf_values.specs.Results.{IsFault, IsOutcomeAs};
ghost use Rattle.tlsf_values.specs.Values.{Evaluator};
ghost use Rattle.tlsf_values.specs.declared.work.Work.{Work as PlainWork};
ghost use Rattle.tlsf_syntax.specs.Seen.{word_seen};

use crate::formula::{Connective, Formula};
use crate::members::Members;
use crate::scope::Scope;
use crate::work::Work;
use spec_faults::SpecFault;
use std::alloc::AllocError;
use tlsf_syntax::{Expr, Range, Word};

/// A big operator: the first byte of its node, what it joins by, and its body.
#[derive(Drop)]
pub(crate) struct Big<'t> {
    pub(crate) place: u64,
    pub(crate) connective: Connective,
    pub(crate) part: &'t Expr,
}

/// A range that is gone over.
#[derive(Drop)]
pub(crate) struct Level<'t> {
    pub(crate) word: &'t Word,
    /// The members that are left.
    pub(crate) members: Members,
    /// The ranges inside this one.
    pub(crate) inner: &'t [Range],
    /// What the members before have joined.
    pub(crate) so_far: Option<Formula>,
}

/// The ranges inside the innermost one that is gone over; where none is, all.
pub(crate) fn inner_ranges<'t>(ranges: &'t [Range], levels: &[Level<'t>]) -> &'t [Range]
    ensures { result.now ≡ inner_of ranges.now (reverse levels.now) }
{
    match levels.last() {
        Some(level) => level.inner,
        None => ranges,
    }
}

impl<'t> Level<'t> {
    /// A range of which nothing is joined yet, over these members.
    pub(crate) fn new(word: &'t Word, members: Members, inner: &'t [Range]) -> Level<'t>
        ensures { result ≡ record { word = word.entry; members = members; inner = inner.entry; so_far = None } }
    {
        Level {
            word,
            members,
            inner,
            so_far: None,
        }
    }
}

impl<'t> Big<'t> {
    /// Binds the level's next member, and the level stands innermost; or gives what its members have joined, where none is left.
    pub(crate) fn begin(
        &self,
        bound: &mut Scope<'t>,
        levels: &mut Vec<Level<'t>>,
        level: Level<'t>,
    ) -> Result<Option<Formula>, AllocError>
        ensures value { (r : Evaluator) (ranges : List TreeRange) (w : PlainWork) → IfOk result (λ next. IsOnward r self.now
            (go_on (level_value r self.now bound.old (word_seen level.entry.word.now) level.entry.inner.now (members_seen level.entry.members) level.entry.so_far w) (λ x w. after r self.now bound.old (reverse levels.old.items) x w))
            ranges next bound.new (reverse levels.new.items) w) }
        ensures less { (ranges : List TreeRange) → IfOk result (λ next. IsLess next ranges (reverse levels.new.items) (pending (level.entry ∷ reverse levels.old.items))) }
        ensures all { IfOk result (λ next. IfSome next (λ _. levels.new.items ≡ levels.old.items)) }
        ensures outer { OnOk result (drop (length (reverse levels.new.items)) bound.new ≡ drop (length (reverse levels.old.items)) bound.old) }
    {
        let mut level = level;
        let Some(number) = level.members.next() else {
            return Ok(Some(self.connective.of_all(level.so_far)));
        };
        bound.push_number(&level.word.name, number)?;
        levels.push(level)?;
        Ok(None)
    }

    /// Joins a member's formula to those of the level so far.
    fn joined(
        &self,
        level: Level<'t>,
        formula: Formula,
        work: &mut Work,
    ) -> Result<Level<'t>, SpecFault>
        ensures value { IsOutcomeAs (λ l. l.so_far) result work.new (go_on (joined_with self.now.place self.now.connective level.entry.so_far formula work.old) (λ x w. gives (Some x) w)) }
        ensures same { IfOk result (λ l. l ≡ record { word = level.entry.word; members = level.entry.members; inner = level.entry.inner; so_far = l.so_far }) }
        ensures grows { Grows work.old.formulas work.new.formulas }
    {
        let mut level = level;
        let joined = work.joined_with(self.place, self.connective, level.so_far, formula)?;
        level.so_far = Some(joined);
        Ok(level)
    }

    /// The innermost level's member has this formula: the next member of the innermost level that has one is bound, or all are
    /// gone over, and this is the formula of the whole.
    pub(crate) fn go_on(
        &self,
        bound: &mut Scope<'t>,
        levels: &mut Vec<Level<'t>>,
        formula: Formula,
        work: &mut Work,
    ) -> Result<Option<Formula>, SpecFault>
        ensures value { (r : Evaluator) (ranges : List TreeRange) → IfOk result (λ next. IsOnward r self.now (after r self.now bound.old (reverse levels.old.items) formula work.old) ranges next bound.new (reverse levels.new.items) work.new) }
        ensures fault { (r : Evaluator) → IfErr result (λ e. IsFault (after r self.now bound.old (reverse levels.old.items) formula work.old) e) }
        ensures less { (ranges : List TreeRange) → IfOk result (λ next. IsLess next ranges (reverse levels.new.items) (pending (reverse levels.old.items))) }
        ensures all { IfOk result (λ next. IfSome next (λ _. levels.new.items ≡ [])) }
        ensures outer { OnOk result (drop (length (reverse levels.new.items)) bound.new ≡ drop (length (reverse levels.old.items)) bound.old) }
        ensures grows { Grows work.old.formulas work.new.formulas }
    {
        let mut formula = formula;
        while let Some(level) = levels.pop() {
            bound.pop();
            let level = self.joined(level, formula, work)?;
            match self.begin(bound, levels, level)? {
                Some(joined) => formula = joined,
                None => return Ok(None),
            }
        }
        Ok(Some(formula))
    }
}
