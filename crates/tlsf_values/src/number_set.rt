//! Sets of numbers.

ghost use Rattle.std.specs.Prelude.{◌≡◌, IfOk};
ghost use Rattle.tlsf_values.specs.SetOperations.{combined};
ghost use Rattle.tlsf_values.specs.Sets.{is_in, set_of};

use crate::set_operation::SetOperation;
use std::alloc::{AllocError, Global};
use std::marker::Model;
use std::rc::Rc;

/// A set of numbers, 8 bytes each; its copies share them. A contract sees it as the list of the numbers, which rises strictly.
#[derive(Debug, Drop)]
pub struct NumberSet {
    numbers: Rc<Vec<i64>>,
}

impl Model for NumberSet {
    ghost use Rattle.std.specs.Prelude.{◌≡◌, ℤ, List};
    ghost use Rattle.tlsf_values.specs.Sets.{set_of};

    ghost Value = { List ℤ };

    ghost view = { λ s. s.numbers.value.items };

    ghost invariant = { λ s. set_of s.numbers.value.items ≡ s.numbers.value.items };
}

impl NumberSet {
    /// The set of these numbers, in any order. It takes the time for sorting them.
    pub fn of(alloc: Global, numbers: &[i64]) -> Result<NumberSet, AllocError>
        ensures { IfOk result (λ s. s ≡ set_of numbers.now) }
    {
        NumberSet::made(alloc, Vec::from_slice(alloc, numbers)?)
    }

    /// The set of these numbers, in any order, which are sorted.
    pub(crate) fn made(alloc: Global, mut numbers: Vec<i64>) -> Result<NumberSet, AllocError>
        ensures { IfOk result (λ s. s ≡ set_of numbers.items) }
    {
        numbers.sort_unstable();
        numbers.dedup();
        NumberSet::of_rising(alloc, numbers)
    }

    fn of_rising(alloc: Global, mut numbers: Vec<i64>) -> Result<NumberSet, AllocError>
        requires { set_of numbers.items ≡ numbers.items }
        ensures { IfOk result (λ s. s ≡ numbers.items) }
    {
        numbers.shrink_to_fit();
        let numbers = Rc::new(alloc, numbers)?;
        Ok(NumberSet { numbers })
    }

    fn as_slice(&self) -> &[i64]
        ensures same { result.now ≡ self.now }
        ensures rising { set_of self.now ≡ self.now }
    {
        self.numbers.as_slice()
    }

    /// The numbers of the set, which rise.
    pub fn numbers(&self, alloc: Global) -> Result<Vec<i64>, AllocError>
        ensures numbers { IfOk result (λ v. v.items ≡ self.now) }
        ensures rising { IfOk result (λ v. set_of v.items ≡ v.items) }
    {
        Vec::from_slice(alloc, self.as_slice())
    }

    /// Whether the set has the number. It takes a step for each halving of the numbers.
    pub(crate) fn contains(&self, number: i64) -> bool
        ensures { result ≡ is_in self.now number }
    {
        self.numbers.binary_search(&number).is_ok()
    }

    /// What the operator keeps of this set and the other one, which are gone through once, side by side.
    pub(crate) fn combined(
        &self,
        alloc: Global,
        operation: SetOperation,
        other: &NumberSet,
    ) -> Result<NumberSet, AllocError>
        ensures { IfOk result (λ s. s ≡ combined operation self.now other.now) }
    {
        let numbers = operation.merged(alloc, self.as_slice(), other.as_slice())?;
        NumberSet::of_rising(alloc, numbers)
    }
}

/// It takes constant time.
impl Clone for NumberSet {
    ghost is_clone = { λ set copy. copy ≡ set };

    fn clone(&self) -> Result<NumberSet, AllocError> {
        Ok(NumberSet {
            numbers: self.numbers.clone()?,
        })
    }
}
