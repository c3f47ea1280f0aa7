//! Operators whose operands may be buses and members of enumerations, and all operators with two operands.

ghost use Rattle.ltl_formula.specs.Nodes.{Grows};
ghost use Rattle.tlsf_values.specs.NamesSeen.{names_seen};
ghost use Rattle.tlsf_values.specs.Operators.{equated, matched_at, operated};
ghost use Rattle.tlsf_values.specs.Results.{IsOutcome, IsOutcomeAs};
ghost use Rattle.tlsf_values.specs.declared.formula.Formula.TheVariants.{Flat};

use crate::formula::{Connective, Formula, Pairing};
use crate::names::Names;
use crate::numbers::{Arithmetic, Comparison, Places};
use crate::set_operation::SetOperation;
use crate::value::Value;
use crate::work::Work;
use ltl_formula::FormulaId;
use spec_faults::{SpecCode, SpecFault, fault};
use tlsf_syntax::Op;

impl<'t> Names<'t> {
    /// A bus has one of a member's values.
    fn matched(
        &self,
        work: &mut Work,
        places: Places,
        bus: u32,
        member: u32,
    ) -> Result<FormulaId, SpecFault>
        ensures value { IsOutcomeAs Flat result work.new (matched_at (names_seen self.now) places bus member work.old) }
        ensures grows { Grows work.old.formulas work.new.formulas }
    {
        let range = self.bus(bus);
        let values = self.values(member);
        work.matched(places, range.first, range.width, values)
    }

    /// `==`: the left operand is a number, a bus or a member, and the right one fits it.
    fn equated(
        &self,
        work: &mut Work,
        places: Places,
        left: &Value,
        right: &Value,
    ) -> Result<Formula, SpecFault>
        ensures value { IsOutcome result work.new (equated (names_seen self.now) places left.now right.now work.old) }
        ensures grows { Grows work.old.formulas work.new.formulas }
    {
        match (left, right) {
            (Value::Number(left), _) => Ok(Formula::Sure(*left == right.number(places.right)?)),
            (Value::Bus(bus), Value::EnumValue(member)) => Ok(Formula::Flat(self.matched(
                work, places, *bus, *member,
            )?)),
            (Value::EnumValue(member), Value::Bus(bus)) => Ok(Formula::Flat(self.matched(
                work, places, *bus, *member,
            )?)),
            (Value::Bus(_), _) => Err(fault(SpecCode::WrongSort, places.right)),
            (Value::EnumValue(_), _) => Err(fault(SpecCode::WrongSort, places.right)),
            _ => Err(fault(SpecCode::WrongSort, places.left)),
        }
    }

    fn unequated(
        &self,
        work: &mut Work,
        places: Places,
        left: &Value,
        right: &Value,
    ) -> Result<Value, SpecFault>
        ensures value { IsOutcome result work.new (operated (names_seen self.now) Op.Unequal places left.now right.now work.old) }
        ensures grows { Grows work.old.formulas work.new.formulas }
    {
        let equal = self.equated(work, places, left, right)?;
        Ok(Value::from(work.opposed(places.own, equal)?))
    }

    /// The value of an operator over its two operands, which were evaluated, or the first fault that it has. The sorts are
    /// tested from left to right.
    pub(crate) fn operated(
        &self,
        work: &mut Work,
        op: Op,
        places: Places,
        left: &Value,
        right: &Value,
    ) -> Result<Value, SpecFault>
        ensures value { IsOutcome result work.new (operated (names_seen self.now) op places left.now right.now work.old) }
        ensures grows { Grows work.old.formulas work.new.formulas }
    {
        match op {
            Op::Mul => work.arithmetic(Arithmetic::Mul, places, left, right),
            Op::Div => work.arithmetic(Arithmetic::Div, places, left, right),
            Op::Rem => work.arithmetic(Arithmetic::Rem, places, left, right),
            Op::Plus => work.arithmetic(Arithmetic::Plus, places, left, right),
            Op::Minus => work.arithmetic(Arithmetic::Minus, places, left, right),
            Op::Join => work.on_sets(self.alloc, SetOperation::Join, places, left, right),
            Op::Meet => work.on_sets(self.alloc, SetOperation::Meet, places, left, right),
            Op::Difference => work.on_sets(
                self.alloc,
                SetOperation::Difference,
                places,
                left,
                right,
            ),
            Op::Equal => Ok(Value::from(self.equated(work, places, left, right)?)),
            Op::Unequal => self.unequated(work, places, left, right),
            Op::Less => work.compared(Comparison::Less, places, left, right),
            Op::LessEqual => work.compared(Comparison::LessEqual, places, left, right),
            Op::Greater => work.compared(Comparison::Greater, places, left, right),
            Op::GreaterEqual => work.compared(Comparison::GreaterEqual, places, left, right),
            Op::Element => work.element(places, left, right),
            Op::And => work.on_connective(Connective::And, places, left, right),
            Op::Or => work.on_connective(Connective::Or, places, left, right),
            Op::Implies => work.on_connective(Connective::Implies, places, left, right),
            Op::Equiv => work.on_connective(Connective::Equiv, places, left, right),
            Op::WeakUntil => work.on_pairing(Pairing::WeakUntil, places, left, right),
            Op::Until => work.on_pairing(Pairing::Until, places, left, right),
            Op::Release => work.on_pairing(Pairing::Release, places, left, right),
            _ => Err(fault(SpecCode::WrongSort, places.own)),
        }
    }
}
