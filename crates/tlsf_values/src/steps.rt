//! Sets as they are written, once their parts are evaluated.

ghost use Rattle.std.specs.Prelude.{◌≡◌, ◌+ℤ◌, ◌-ℤ◌, ◌<◌, ◌^◌, false, pos, unsigned_abs, FitsSigned, IfOk};
ghost use Rattle.std.proofs.Common.{w64};
ghost use Rattle.std.specs.Ordering.{int_eq};
ghost use Rattle.tlsf_values.specs.Outcomes.{checked};
ghost use Rattle.tlsf_values.specs.Results.{IsOutcome};
ghost use Rattle.tlsf_values.specs.Sorts.{number_in};
ghost use Rattle.ltl_formula.specs.Nodes.{Grows};
ghost use Rattle.tlsf_values.specs.Values.{steps_value};
ghost use Rattle.tlsf_values.specs.Steps.{passes, rest_from, step_count, stepped, those_from};
ghost use Rattle.tlsf_values.specs.PartsSeen.{parts_seen, with_part};

use crate::number_set::NumberSet;
use crate::value::{Operand, Value};
use crate::work::Work;
use spec_faults::{SpecCode, SpecFault, fault};
use std::alloc::{AllocError, Global};

/// Adds the value of a written set's part to the numbers of those before it; or gives the first byte of the first part that isn't a
/// number. What is no number is let go at once: sets may be large.
pub(crate) fn add_part(
    numbers: &mut Vec<i64>,
    wrong: Option<u64>,
    place: u64,
    value: Value,
) -> Result<Option<u64>, AllocError>
    ensures { IfOk result (λ still. parts_seen still numbers.new.items ≡ with_part (parts_seen wrong numbers.old.items) place value) }
{
    match value {
        Value::Number(number) => {
            numbers.push(number)?;
            Ok(wrong)
        }
        _ => Ok(wrong.or(Some(place))),
    }
}

impl Work {
    /// `{first, second .. last}`, once these are evaluated.
    pub(crate) fn steps_over(
        &mut self,
        alloc: Global,
        place: u64,
        first: Operand<'_>,
        second: Operand<'_>,
        last: Operand<'_>,
    ) -> Result<Value, SpecFault>
        ensures value { IsOutcome result self.new (checked (number_in first.entry.place first.entry.value.now) (λ x w. checked (number_in second.entry.place second.entry.value.now) (λ y w.
            checked (number_in last.entry.place last.entry.value.now) (λ z w. steps_value place x y z w) w) w) self.old) }
        ensures grows { Grows self.old.formulas self.new.formulas }
    {
        let first = first.number()?;
        let second = second.number()?;
        let last = last.number()?;
        self.stepped(alloc, place, first, second, last)
    }

    /// The members are counted before they are laid out.
    fn stepped(
        &mut self,
        alloc: Global,
        place: u64,
        first: i64,
        second: i64,
        last: i64,
    ) -> Result<Value, SpecFault>
        ensures value { IsOutcome result self.new (steps_value place first second last self.old) }
        ensures grows { Grows self.old.formulas self.new.formulas }
    {
        if first == second {
            return Err(fault(SpecCode::NumberRange, place));
        }
        self.count(place, step_count(first, second, last))?;
        let numbers = laid_out(alloc, first, second, last)?;
        Ok(Value::Set(NumberSet::made(alloc, numbers)?))
    }
}

/// Whether a number lies beyond the last one, as one goes by this step.
fn has_passed(number: i128, step: i128, last: i128) -> bool
    ensures { result ≡ passes number step last }
{
    if step > 0 {
        last < number
    } else {
        number < last
    }
}

/// How far it is from one number to another.
fn step(from: i64, to: i64) -> i128
    ensures value { result ≡ to -ℤ from }
    ensures bound { unsigned_abs result < 2 ^ 64 }
{
    i128::from(to) - i128::from(from)
}

/// How many numbers there are from the first one to the last, by the step from the first to the second.
fn step_count(first: i64, second: i64, last: i64) -> u128
    requires { int_eq first second ≡ false }
    ensures { result ≡ step_count first second last }
{
    let by = step(first, second);
    if has_passed(i128::from(first), by, i128::from(last)) {
        return 0;
    }
    step(first, last).unsigned_abs() / by.unsigned_abs() + 1
}

/// The number, unless the last one is passed by it.
fn unless_passed(number: i128, by: i128, last: i64) -> Option<i64>
    requires some { int_eq by (pos 0) ≡ false }
    requires fits { passes number by last ≡ false → FitsSigned w64 number }
    ensures { rest_from number by last ≡ those_from by last result }
{
    if has_passed(number, by, i128::from(last)) {
        return None;
    }
    Some(number as i64)
}

/// The number after this one, unless the last one is passed by it.
fn following(number: i64, by: i128, last: i64) -> Option<i64>
    requires some { int_eq by (pos 0) ≡ false }
    requires bound { unsigned_abs by < 2 ^ 64 }
    ensures { rest_from (number +ℤ by) by last ≡ those_from by last result }
{
    unless_passed(i128::from(number) + by, by, last)
}

/// The numbers from the first one to the last, by the step from the first to the second.
fn laid_out(alloc: Global, first: i64, second: i64, last: i64) -> Result<Vec<i64>, AllocError>
    requires { int_eq first second ≡ false }
    ensures { IfOk result (λ v. v.items ≡ stepped first second last) }
{
    let by = step(first, second);
    let mut numbers = Vec::new(alloc);
    let mut next = unless_passed(i128::from(first), by, last);
    while let Some(number) = next {
        numbers.push(number)?;
        next = following(number, by, last);
    }
    Ok(numbers)
}
