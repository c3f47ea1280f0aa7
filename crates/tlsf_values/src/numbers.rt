//! Operations and comparisons of numbers.

ghost use Rattle.std.specs.Prelude.{◌≡◌, ◌+ℤ◌, ◌-ℤ◌, ◌*ℤ◌, ℤ, FitsSigned, SomeIff};
ghost use Rattle.std.specs.Int.{w64};
ghost use Rattle.tlsf_values.specs.Numbers.{computed, divided, holds_of, in_range};
ghost use Rattle.tlsf_values.specs.Results.{IsChecked};

use spec_faults::{SpecCode, SpecFault, fault};

/// An operation on two numbers.
#[derive(Clone, Copy, Debug, PartialEq, Eq)]
pub enum Arithmetic {
    Mul,
    Div,
    Rem,
    Plus,
    Minus,
}

/// A comparison of two numbers.
#[derive(Clone, Copy, Debug, PartialEq, Eq)]
pub enum Comparison {
    Less,
    LessEqual,
    Greater,
    GreaterEqual,
}

/// The first bytes of an operator's node and of its operands.
#[derive(Clone, Copy, Debug, PartialEq, Eq)]
pub struct Places {
    pub own: u64,
    pub left: u64,
    pub right: u64,
}

impl Arithmetic {
    /// The operation's result, which has 64 bits.
    pub(crate) fn computed(self, places: Places, x: i64, y: i64) -> Result<i64, SpecFault>
        ensures { IsChecked result (computed self places x y) }
    {
        match self {
            Arithmetic::Mul => ranged(places.own, x.checked_mul(y)),
            Arithmetic::Div => quotient(places, x, y),
            Arithmetic::Rem => remainder(places, x, y),
            Arithmetic::Plus => ranged(places.own, x.checked_add(y)),
            Arithmetic::Minus => ranged(places.own, x.checked_sub(y)),
        }
    }
}

fn ranged(place: u64, number: Option<i64>) -> Result<i64, SpecFault>
    ensures { (z : ℤ) → SomeIff number (FitsSigned w64 z) z → IsChecked result (in_range place z) }
{
    match number {
        Some(number) => Ok(number),
        None => Err(fault(SpecCode::NumberRange, place)),
    }
}

fn quotient(places: Places, x: i64, y: i64) -> Result<i64, SpecFault>
    ensures { IsChecked result (computed Arithmetic.Div places x y) }
{
    match y {
        0 => Err(fault(SpecCode::ZeroDivisor, places.right)),
        -1 => ranged(places.own, x.checked_neg()),
        _ => Ok(x / y),
    }
}

fn remainder(places: Places, x: i64, y: i64) -> Result<i64, SpecFault>
    ensures { IsChecked result (computed Arithmetic.Rem places x y) }
{
    match y {
        0 => Err(fault(SpecCode::ZeroDivisor, places.right)),
        -1 => Ok(0),
        _ => Ok(x % y),
    }
}

impl Comparison {
    pub(crate) fn holds(self, x: i64, y: i64) -> bool
        ensures { result ≡ holds_of self x y }
    {
        match self {
            Comparison::Less => x < y,
            Comparison::LessEqual => x <= y,
            Comparison::Greater => x > y,
            Comparison::GreaterEqual => x >= y,
        }
    }
}
