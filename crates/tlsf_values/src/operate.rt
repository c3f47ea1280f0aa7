//! Operators on values, each once its operands are evaluated.

ghost use Rattle.ltl_formula.specs.Nodes.{Grows};
ghost use Rattle.tlsf_values.specs.Operators.{arithmetic, compared, denied, element, on_connective, on_pairing, on_sets, prefixed, signed};
ghost use Rattle.tlsf_values.specs.Results.{IsOutcome};

use crate::formula::{Connective, Pairing, Sign};
use crate::numbers::{Arithmetic, Comparison, Places};
use crate::set_operation::SetOperation;
use crate::value::Value;
use crate::work::Work;
use spec_faults::{SpecCode, SpecFault, fault};
use std::alloc::Global;
use tlsf_syntax::Op;

impl Work {
    pub(crate) fn arithmetic(
        &self,
        operation: Arithmetic,
        places: Places,
        left: &Value,
        right: &Value,
    ) -> Result<Value, SpecFault>
        ensures value { IsOutcome result self.now (arithmetic operation places left.now right.now self.now) }
    {
        let left = left.number(places.left)?;
        let right = right.number(places.right)?;
        Ok(Value::Number(operation.computed(places, left, right)?))
    }

    pub(crate) fn compared(
        &self,
        comparison: Comparison,
        places: Places,
        left: &Value,
        right: &Value,
    ) -> Result<Value, SpecFault>
        ensures value { IsOutcome result self.now (compared comparison places left.now right.now self.now) }
    {
        let left = left.number(places.left)?;
        let right = right.number(places.right)?;
        Ok(Value::Truth(comparison.holds(left, right)))
    }

    /// Whether a number is a member.
    pub(crate) fn element(
        &self,
        places: Places,
        left: &Value,
        right: &Value,
    ) -> Result<Value, SpecFault>
        ensures value { IsOutcome result self.now (element places left.now right.now self.now) }
    {
        let number = left.number(places.left)?;
        let set = right.set(places.right)?;
        Ok(Value::Truth(set.contains(number)))
    }

    pub(crate) fn on_sets(
        &self,
        alloc: Global,
        operation: SetOperation,
        places: Places,
        left: &Value,
        right: &Value,
    ) -> Result<Value, SpecFault>
        ensures value { IsOutcome result self.now (on_sets operation places left.now right.now self.now) }
    {
        let left = left.set(places.left)?;
        let right = right.set(places.right)?;
        Ok(Value::Set(left.combined(alloc, operation, right)?))
    }

    pub(crate) fn on_connective(
        &mut self,
        connective: Connective,
        places: Places,
        left: &Value,
        right: &Value,
    ) -> Result<Value, SpecFault>
        ensures value { IsOutcome result self.new (on_connective connective places left.now right.now self.old) }
        ensures grows { Grows self.old.formulas self.new.formulas }
    {
        let left = left.formula(places.left)?;
        let right = right.formula(places.right)?;
        Ok(Value::from(self.connected(places.own, connective, left, right)?))
    }

    pub(crate) fn on_pairing(
        &mut self,
        pairing: Pairing,
        places: Places,
        left: &Value,
        right: &Value,
    ) -> Result<Value, SpecFault>
        ensures value { IsOutcome result self.new (on_pairing pairing places left.now right.now self.old) }
        ensures grows { Grows self.old.formulas self.new.formulas }
    {
        let left = left.formula(places.left)?;
        let right = right.formula(places.right)?;
        Ok(Value::from(self.over_both(places.own, pairing, left, right)?))
    }

    fn signed(&mut self, sign: Sign, own: u64, place: u64, part: &Value) -> Result<Value, SpecFault>
        ensures value { IsOutcome result self.new (signed sign own place part.now self.old) }
        ensures grows { Grows self.old.formulas self.new.formulas }
    {
        let part = part.formula(place)?;
        Ok(Value::from(self.over_one(own, sign, part)?))
    }

    fn denied(&mut self, own: u64, place: u64, part: &Value) -> Result<Value, SpecFault>
        ensures value { IsOutcome result self.new (denied own place part.now self.old) }
        ensures grows { Grows self.old.formulas self.new.formulas }
    {
        let part = part.formula(place)?;
        Ok(Value::from(self.opposed(own, part)?))
    }

    /// A sign before its one operand.
    pub(crate) fn prefixed(
        &mut self,
        op: Op,
        own: u64,
        place: u64,
        part: &Value,
    ) -> Result<Value, SpecFault>
        ensures value { IsOutcome result self.new (prefixed op own place part.now self.old) }
        ensures grows { Grows self.old.formulas self.new.formulas }
    {
        match op {
            Op::Not => self.denied(own, place, part),
            Op::Next => self.signed(Sign::Next, own, place, part),
            Op::Finally => self.signed(Sign::Finally, own, place, part),
            Op::Globally => self.signed(Sign::Globally, own, place, part),
            _ => Err(fault(SpecCode::WrongSort, own)),
        }
    }
}
