//! What an expression evaluates to.

ghost use Rattle.std.specs.Prelude.{◌≡◌};
ghost use Rattle.tlsf_values.specs.Results.{IsChecked, IsCheckedSeen};
ghost use Rattle.tlsf_values.specs.Sorts.{bus_in, formula_in, formula_value, number_in, set_in, truth_in};

use crate::formula::Formula;
use crate::number_set::NumberSet;
use ltl_formula::FormulaId;
use spec_faults::{SpecCode, SpecFault, fault};
use std::alloc::AllocError;

/// The value of an expression, by its sort.
#[derive(Debug, Drop)]
pub enum Value {
    Number(i64),
    Truth(bool),
    Set(NumberSet),
    /// A bus, by its place among the buses.
    Bus(u32),
    /// A member of an enumeration, by its place among the members of all enumerations in the order written.
    EnumValue(u32),
    /// A flat formula of the list.
    Flat(FormulaId),
}

/// What a value must be, as an operand at this byte.
impl Value {
    pub(crate) fn number(&self, place: u64) -> Result<i64, SpecFault>
        ensures { IsChecked result (number_in place self.now) }
    {
        match self {
            Value::Number(number) => Ok(*number),
            _ => Err(fault(SpecCode::WrongSort, place)),
        }
    }

    /// As `number`, of a value that is given away, so that nothing has to be dropped at the exits that come later.
    pub(crate) fn into_number(self, place: u64) -> Result<i64, SpecFault>
        ensures { IsChecked result (number_in place self) }
    {
        self.number(place)
    }

    pub(crate) fn truth(&self, place: u64) -> Result<bool, SpecFault>
        ensures { IsChecked result (truth_in place self.now) }
    {
        match self {
            Value::Truth(truth) => Ok(*truth),
            _ => Err(fault(SpecCode::WrongSort, place)),
        }
    }

    pub(crate) fn bus(&self, place: u64) -> Result<u32, SpecFault>
        ensures { IsChecked result (bus_in place self.now) }
    {
        match self {
            Value::Bus(bus) => Ok(*bus),
            _ => Err(fault(SpecCode::WrongSort, place)),
        }
    }

    pub(crate) fn set(&self, place: u64) -> Result<&NumberSet, SpecFault>
        ensures { IsCheckedSeen (λ s. s.now) result (set_in place self.now) }
    {
        match self {
            Value::Set(set) => Ok(set),
            _ => Err(fault(SpecCode::WrongSort, place)),
        }
    }

    /// A truth may stand where a formula is needed.
    pub(crate) fn formula(&self, place: u64) -> Result<Formula, SpecFault>
        ensures { IsChecked result (formula_in place self.now) }
    {
        match self {
            Value::Truth(truth) => Ok(Formula::Sure(*truth)),
            Value::Flat(id) => Ok(Formula::Flat(*id)),
            _ => Err(fault(SpecCode::WrongSort, place)),
        }
    }
}

/// An operand that was evaluated, with its first byte.
#[derive(Clone, Copy)]
pub(crate) struct Operand<'v> {
    pub(crate) value: &'v Value,
    pub(crate) place: u64,
}

impl Operand<'_> {
    pub(crate) fn number(self) -> Result<i64, SpecFault>
        ensures { IsChecked result (number_in self.entry.place self.entry.value.now) }
    {
        self.value.number(self.place)
    }

    pub(crate) fn formula(self) -> Result<Formula, SpecFault>
        ensures { IsChecked result (formula_in self.entry.place self.entry.value.now) }
    {
        self.value.formula(self.place)
    }
}

impl From<Formula> for Value {
    ghost from_gives = { λ formula value. value ≡ formula_value formula };

    fn from(formula: Formula) -> Value {
        match formula {
            Formula::Sure(truth) => Value::Truth(truth),
            Formula::Flat(id) => Value::Flat(id),
        }
    }
}

/// It takes constant time: copies of a set share its numbers.
impl Clone for Value {
    ghost is_clone = { λ value copy. copy ≡ value };

    fn clone(&self) -> Result<Value, AllocError> {
        Ok(match self {
            Value::Number(number) => Value::Number(*number),
            Value::Truth(truth) => Value::Truth(*truth),
            Value::Set(set) => Value::Set(set.clone()?),
            Value::Bus(bus) => Value::Bus(*bus),
            Value::EnumValue(member) => Value::EnumValue(*member),
            Value::Flat(id) => Value::Flat(*id),
        })
    }
}
