//! The value of an expression with several operands, which are evaluated from left to right before any is tested.

ghost use Rattle.std.specs.Prelude.{◌≡◌, ◌+◌, List, IfErr, IfOk, OnOk, drop, length, map, reverse, []};
ghost use Rattle.tlsf_syntax.specs.declared.expr.Range.{Range as TreeRange};
ghost use Rattle.tlsf_values.specs.Counts.{count_in, count_value, joining_of, window_of};
ghost use Rattle.tlsf_values.specs.LevelsSeen.{IsLess, IsOnward, onward, pending, turns};
ghost use Rattle.ltl_formula.specs.Nodes.{Grows};
ghost use Rattle.tlsf_values.specs.NamesSeen.{names_seen};
ghost use Rattle.tlsf_values.specs.Operators.{operated};
ghost use Rattle.tlsf_values.specs.PartsSeen.{numbers_at};
ghost use Rattle.tlsf_values.specs.Outcomes.{checked, gives, go_on};
ghost use Rattle.tlsf_values.specs.Results.{IsFault, IsOutcome, IsOutcomeAs};
ghost use Rattle.tlsf_syntax.specs.Seen.{expr_seen, link_list_seen, range_list_seen, trees_seen};
ghost use Rattle.tlsf_values.specs.Sorts.{formula_in, number_in};
ghost use Rattle.tlsf_values.specs.Values.{big_at, big_value, chain_value, evaluator, span_start, steps_value, window_at};

use crate::formula::{Connective, Formula};
use crate::levels::{Big, Level, inner_ranges};
use crate::members::Members;
use crate::names::Names;
use crate::numbers::Places;
use crate::scope::Scope;
use crate::steps::add_part;
use crate::value::{Operand, Value};
use crate::work::Work;
use spec_faults::{SpecCode, SpecFault, fault};
use tlsf_syntax::{Expr, Link, Op, Range};

impl<'t> Names<'t> {
    /// The numbers that the parts of a written set have as their values. All parts are evaluated, from left to right, before the
    /// first that isn't a number is refused.
    #[cycle(evaluation)]
    #[tactic(auto, using(crate::proofs::SeenLemmas::start_seen))]
    pub(crate) fn part_numbers(
        &self,
        bound: &mut Scope<'t>,
        parts: &'t [Expr],
        left: u32,
        work: &mut Work,
    ) -> Result<Vec<i64>, SpecFault>
        ensures value { IsOutcomeAs (λ numbers. numbers.items) result work.new (numbers_at (evaluator (names_seen self.now) left) bound.old (trees_seen parts.now) work.old) }
        ensures bound { OnOk result (bound.new ≡ bound.old) }
        ensures grows { Grows work.old.formulas work.new.formulas }
    {
        let mut numbers = Vec::new(self.alloc);
        let mut wrong = None;
        for part in parts {
            let value = self.value(bound, part, left, work)?;
            wrong = add_part(&mut numbers, wrong, part.span.start, value)?;
        }
        match wrong {
            None => Ok(numbers),
            Some(place) => Err(fault(SpecCode::WrongSort, place)),
        }
    }

    /// `{first, second .. last}`, in the node at this byte.
    #[cycle(evaluation)]
    #[tactic(auto, using(crate::proofs::SeenLemmas::start_seen))]
    pub(crate) fn steps(
        &self,
        bound: &mut Scope<'t>,
        place: u64,
        first: &'t Expr,
        second: &'t Expr,
        last: &'t Expr,
        left: u32,
        work: &mut Work,
    ) -> Result<Value, SpecFault>
        ensures value { IsOutcome result work.new (let r = evaluator (names_seen self.now) left in let b = bound.old in
            let t = expr_seen first.now in let u = expr_seen second.now in let v = expr_seen last.now in
            go_on (r.value b t work.old) (λ x w. go_on (r.value b u w) (λ y w. go_on (r.value b v w) (λ z w.
            checked (number_in (span_start t) x) (λ x w. checked (number_in (span_start u) y) (λ y w. checked (number_in (span_start v) z) (λ z w. steps_value place x y z w) w) w) w)))) }
        ensures bound { OnOk result (bound.new ≡ bound.old) }
        ensures grows { Grows work.old.formulas work.new.formulas }
    {
        let first_value = self.value(bound, first, left, work)?;
        let second_value = self.value(bound, second, left, work)?;
        let last_value = self.value(bound, last, left, work)?;
        let from = Operand {
            value: &first_value,
            place: first.span.start,
        };
        let next = Operand {
            value: &second_value,
            place: second.span.start,
        };
        let to = Operand {
            value: &last_value,
            place: last.span.start,
        };
        work.steps_over(self.alloc, place, from, next, to)
    }

    /// Operators that join to the left, in the node at this byte.
    #[cycle(evaluation)]
    #[tactic(auto, using(crate::proofs::SeenLemmas::start_seen))]
    pub(crate) fn chain(
        &self,
        bound: &mut Scope<'t>,
        place: u64,
        first: &'t Expr,
        rest: &'t [Link],
        left: u32,
        work: &mut Work,
    ) -> Result<Value, SpecFault>
        ensures value { IsOutcome result work.new (let r = evaluator (names_seen self.now) left in let b = bound.old in let t = expr_seen first.now in
            go_on (r.value b t work.old) (λ v w. chain_value (names_seen self.now) r b place (span_start t) v (link_list_seen rest.now) w)) }
        ensures bound { OnOk result (bound.new ≡ bound.old) }
        ensures grows { Grows work.old.formulas work.new.formulas }
    {
        let mut value = self.value(bound, first, left, work)?;
        for link in rest {
            let right = self.value(bound, &link.right, left, work)?;
            let places = Places {
                own: place,
                left: first.span.start,
                right: link.right.span.start,
            };
            value = self.operated(work, link.op, places, &value, &right)?;
        }
        Ok(value)
    }

    /// An operator with two operands, in the node at this byte.
    #[cycle(evaluation)]
    #[tactic(auto, using(crate::proofs::SeenLemmas::start_seen))]
    pub(crate) fn pair(
        &self,
        bound: &mut Scope<'t>,
        place: u64,
        op: Op,
        first: &'t Expr,
        second: &'t Expr,
        left: u32,
        work: &mut Work,
    ) -> Result<Value, SpecFault>
        ensures value { IsOutcome result work.new (let r = evaluator (names_seen self.now) left in let b = bound.old in let t = expr_seen first.now in let u = expr_seen second.now in
            go_on (r.value b t work.old) (λ x w. go_on (r.value b u w) (λ y w. operated (names_seen self.now) op (record { own = place; left = span_start t; right = span_start u }) x y w))) }
        ensures bound { OnOk result (bound.new ≡ bound.old) }
        ensures grows { Grows work.old.formulas work.new.formulas }
    {
        let first_value = self.value(bound, first, left, work)?;
        let second_value = self.value(bound, second, left, work)?;
        let places = Places {
            own: place,
            left: first.span.start,
            right: second.span.start,
        };
        self.operated(work, op, places, &first_value, &second_value)
    }

    /// `X[number] part`, in the node at this byte.
    #[cycle(evaluation)]
    #[tactic(auto, using(crate::proofs::SeenLemmas::start_seen))]
    pub(crate) fn counted(
        &self,
        bound: &mut Scope<'t>,
        place: u64,
        number: &'t Expr,
        part: &'t Expr,
        left: u32,
        work: &mut Work,
    ) -> Result<Value, SpecFault>
        ensures value { IsOutcome result work.new (let r = evaluator (names_seen self.now) left in let b = bound.old in let n = expr_seen number.now in let t = expr_seen part.now in
            go_on (r.value b n work.old) (λ m w. go_on (r.value b t w) (λ v w.
            checked (number_in (span_start n) m) (λ z w. checked (formula_in (span_start t) v) (λ x w. checked (count_in (span_start n) z) (λ k w. count_value place k x w) w) w) w))) }
        ensures bound { OnOk result (bound.new ≡ bound.old) }
        ensures grows { Grows work.old.formulas work.new.formulas }
    {
        let number_value = self.value(bound, number, left, work)?;
        let value = self.value(bound, part, left, work)?;
        let times = Operand {
            value: &number_value,
            place: number.span.start,
        };
        let part = Operand {
            value: &value,
            place: part.span.start,
        };
        work.counted_next(place, times, part)
    }

    /// `F[from:to] part` or `G[from:to] part`, in the node at this byte.
    #[cycle(evaluation)]
    #[tactic(auto, using(crate::proofs::SeenLemmas::start_seen))]
    pub(crate) fn windowed(
        &self,
        bound: &mut Scope<'t>,
        place: u64,
        op: Op,
        from: &'t Expr,
        to: &'t Expr,
        part: &'t Expr,
        left: u32,
        work: &mut Work,
    ) -> Result<Value, SpecFault>
        ensures value { IsOutcome result work.new (window_at (evaluator (names_seen self.now) left) bound.old place (window_of op) (expr_seen from.now) (expr_seen to.now) (expr_seen part.now) work.old) }
        ensures bound { OnOk result (bound.new ≡ bound.old) }
        ensures grows { Grows work.old.formulas work.new.formulas }
    {
        let Some(connective) = Connective::of_window(op) else {
            return Err(fault(SpecCode::WrongSort, place));
        };
        let first = self.value(bound, from, left, work)?;
        let last = self.value(bound, to, left, work)?;
        let value = self.value(bound, part, left, work)?;
        let from = Operand {
            value: &first,
            place: from.span.start,
        };
        let to = Operand {
            value: &last,
            place: to.span.start,
        };
        let part = Operand {
            value: &value,
            place: part.span.start,
        };
        work.window_over(place, connective, from, to, part)
    }

    /// `&&[ranges] part` or `||[ranges] part`, in the node at this byte.
    #[cycle(evaluation)]
    #[tactic(auto, using(crate::proofs::SeenLemmas::start_seen))]
    pub(crate) fn big(
        &self,
        bound: &mut Scope<'t>,
        place: u64,
        op: Op,
        ranges: &'t [Range],
        part: &'t Expr,
        left: u32,
        work: &mut Work,
    ) -> Result<Value, SpecFault>
        ensures value { IsOutcome result work.new (big_at (evaluator (names_seen self.now) left) bound.old place (joining_of op) (range_list_seen ranges.now) (expr_seen part.now) work.old) }
        ensures bound { OnOk result (bound.new ≡ bound.old) }
        ensures grows { Grows work.old.formulas work.new.formulas }
    {
        let Some(connective) = Connective::of_big(op) else {
            return Err(fault(SpecCode::WrongSort, place));
        };
        let big = Big {
            place,
            connective,
            part,
        };
        Ok(Value::from(self.over_ranges(bound, &big, ranges, left, work)?))
    }

    /// The formulas of all members of the ranges, joined. However many ranges there are, the depth of calls is the same.
    #[cycle(evaluation)]
    #[tactic(auto, using(crate::proofs::SeenLemmas::start_seen))]
    fn over_ranges(
        &self,
        bound: &mut Scope<'t>,
        big: &Big<'t>,
        ranges: &'t [Range],
        left: u32,
        work: &mut Work,
    ) -> Result<Formula, SpecFault>
        ensures value { IsOutcome result work.new (big_value (evaluator (names_seen self.now) left) big.now.place big.now.connective bound.old (range_list_seen ranges.now) (expr_seen big.now.part.now) work.old) }
        ensures bound { OnOk result (bound.new ≡ bound.old) }
        ensures grows { Grows work.old.formulas work.new.formulas }
    {
        let mut levels = Vec::new(self.alloc);
        loop {
            let inner = inner_ranges(ranges, &levels);
            let Some(formula) = self.inward(bound, big, &mut levels, inner, left, work)? else {
                continue;
            };
            if let Some(whole) = big.go_on(bound, &mut levels, formula, work)? {
                return Ok(whole);
            }
        }
    }

    /// Opens the next range, whose first member is bound, or evaluates the body where none is left: the formula of the innermost
    /// member, where there is one now.
    #[cycle(evaluation)]
    #[tactic(auto, using(crate::proofs::SeenLemmas::start_seen))]
    fn inward(
        &self,
        bound: &mut Scope<'t>,
        big: &Big<'t>,
        levels: &mut Vec<Level<'t>>,
        ranges: &'t [Range],
        left: u32,
        work: &mut Work,
    ) -> Result<Option<Formula>, SpecFault>
        ensures value { (all : List TreeRange) → IfOk result (λ next. IsOnward (evaluator (names_seen self.now) left) big.now
            (onward (evaluator (names_seen self.now) left) big.now bound.old ranges.now (reverse levels.old.items) work.old) all next bound.new (reverse levels.new.items) work.new) }
        ensures fault { IfErr result (λ e. IsFault (big_value (evaluator (names_seen self.now) left) big.now.place big.now.connective bound.old (range_list_seen ranges.now) (expr_seen big.now.part.now) work.old) e) }
        ensures less { (all : List TreeRange) → IfOk result (λ next. IsLess next all (reverse levels.new.items) (turns (length ranges.now) + pending (reverse levels.old.items))) }
        ensures outer { OnOk result (drop (length (reverse levels.new.items)) bound.new ≡ drop (length (reverse levels.old.items)) bound.old) }
        ensures grows { Grows work.old.formulas work.new.formulas }
    {
        match ranges {
            [] => {
                let value = self.value(bound, big.part, left, work)?;
                Ok(Some(value.formula(big.part.span.start)?))
            }
            [Range::Members { word, set }, inner @ ..] => {
                let value = self.value(bound, set, left, work)?;
                let members = Members::of(self.alloc, value, set.span.start)?;
                let level = Level::new(word, members, inner);
                Ok(big.begin(bound, levels, level)?)
            }
            [
                Range::Between {
                    low,
                    low_strict,
                    word,
                    high_strict,
                    high,
                },
                inner @ ..,
            ] => {
                let first = self
                    .value(bound, low, left, work)?
                    .into_number(low.span.start);
                let last = self
                    .value(bound, high, left, work)?
                    .into_number(high.span.start);
                // Both bounds are evaluated before either is refused for its sort.
                let members = Members::between(first?, *low_strict, *high_strict, last?);
                let level = Level::new(word, members, inner);
                Ok(big.begin(bound, levels, level)?)
            }
        }
    }
}
