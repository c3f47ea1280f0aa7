//! Pairs by their places.

ghost use Rattle.std.specs.Prelude.{◌≡◌, ◌≤◌, ◌⊎◌, IfOk, IfSome, OnOk, Some};

use crate::pairs::{Code, Pair};
use std::alloc::{AllocError, Global};
use std::collections::HashMap;

/// The place of a pair: the values of the latches and the state.
#[derive(Drop, PartialEq, Eq, Hash)]
pub(crate) struct Place {
    pub(crate) code: Code,
    pub(crate) state: u32,
}

impl Place {
    /// The place of a pair. It copies the values.
    pub(crate) fn of(pair: &Pair) -> Result<Place, AllocError>
        ensures { IfOk result (λ place. place ≡ record { code = pair.now.code; state = pair.now.state }) }
    {
        Ok(Place {
            code: pair.code.clone()?,
            state: pair.state,
        })
    }
}

/// The greatest number of each place that stands in a list of pairs.
#[derive(Drop)]
pub(crate) struct Numbers {
    greatest: HashMap<Place, u32>,
}

impl Numbers {
    ghost use Rattle.annot_check.specs.Numbers.{Adds, Knows, greatest_at};

    /// The numbers of the pairs of a list.
    pub(crate) fn of(alloc: Global, pairs: &[Pair]) -> Result<Numbers, AllocError>
        ensures { IfOk result (λ numbers. Knows (greatest_at numbers) pairs.now) }
    {
        let mut numbers = Numbers {
            greatest: HashMap::new(alloc),
        };
        for pair in pairs {
            numbers.add(pair)?;
        }
        Ok(numbers)
    }

    /// Takes one more pair.
    fn add(&mut self, pair: &Pair) -> Result<(), AllocError>
        ensures { OnOk result (Adds (greatest_at self.old) (greatest_at self.new) pair.now) }
    {
        let place = Place::of(pair)?;
        let number = greater(self.greatest_at(&place), pair.number);
        self.greatest.insert(place, number)?;
        Ok(())
    }

    /// The greatest number of a place, where it stands.
    pub(crate) fn greatest_at(&self, place: &Place) -> Option<u32>
        ensures { result ≡ greatest_at self.now place.now }
    {
        self.greatest.get(place).copied()
    }
}

/// The greater of a number that may be there and another.
fn greater(found: Option<u32>, number: u32) -> u32
    ensures own { number ≤ result }
    ensures over { IfSome found (λ n. n ≤ result) }
    ensures one_of { (result ≡ number) ⊎ (found ≡ Some result) }
{
    match found {
        None => number,
        Some(n) => { if n > number { n } else { number } }
    }
}
