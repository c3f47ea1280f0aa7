//! What a big operator goes over.

ghost use Rattle.std.specs.Prelude.{◌≡◌, ◌≤◌, ◌^◌, IfOk, length};
ghost use Rattle.tlsf_values.specs.MembersSeen.{IsNext, listed_seen, members_seen, run_seen};
ghost use Rattle.tlsf_values.specs.Results.{IsCheckedAs};
ghost use Rattle.tlsf_values.specs.Sorts.{set_in};
ghost use Rattle.tlsf_values.specs.Values.{high_of, low_of, run_of};

use crate::value::Value;
use spec_faults::SpecFault;
use std::alloc::Global;

/// The numbers of a list from a place on.
#[derive(Drop)]
pub(crate) struct Listed {
    numbers: Vec<i64>,
    place: usize,
}

/// The numbers from one to another, which aren't laid out, unless the last one was taken.
#[derive(Drop)]
pub(crate) struct Run {
    next: i64,
    last: i64,
    ended: bool,
}

const NOTHING: Run = Run {
    next: 0,
    last: 0,
    ended: true,
};

/// The members that are left, in rising order.
#[derive(Drop)]
pub(crate) enum Members {
    Listed(Listed),
    Run(Run),
}

/// A strict bound is the next number.
fn low_bound(low: i64, strict: bool) -> i128
    ensures { result ≡ low_of strict low }
{
    i128::from(low) + i128::from(strict)
}

fn high_bound(strict: bool, high: i64) -> i128
    ensures { result ≡ high_of strict high }
{
    i128::from(high) - i128::from(strict)
}

impl Listed {
    fn next(&mut self) -> Option<i64>
        ensures { IsNext result (listed_seen self.old) (listed_seen self.new) }
    {
        let number = *self.numbers.get(self.place)?;
        self.place += 1;
        Some(number)
    }
}

impl Run {
    fn next(&mut self) -> Option<i64>
        ensures { IsNext result (run_seen self.old) (run_seen self.new) }
    {
        if self.ended || self.last < self.next {
            return None;
        }
        let number = self.next;
        if number == self.last {
            self.ended = true;
        } else {
            self.next += 1;
        }
        Some(number)
    }
}

impl Members {
    /// The numbers of a value that must be a set, as an operand at this byte.
    pub(crate) fn of(alloc: Global, value: Value, place: u64) -> Result<Members, SpecFault>
        ensures value { IsCheckedAs members_seen result (set_in place value) }
        ensures few { IfOk result (λ members. length (members_seen members) ≤ 2 ^ 65) }
    {
        let set = value.set(place)?;
        Ok(Members::Listed(Listed {
            numbers: set.numbers(alloc)?,
            place: 0,
        }))
    }

    /// The numbers between two bounds; a strict one is none of them. A bound that passes 64 bits leaves none.
    pub(crate) fn between(low: i64, low_strict: bool, high_strict: bool, high: i64) -> Members
        ensures value { members_seen result ≡ run_of (low_of low_strict low) (high_of high_strict high) }
        ensures few { length (members_seen result) ≤ 2 ^ 65 }
    {
        let Ok(next) = i64::try_from(low_bound(low, low_strict)) else {
            return Members::Run(NOTHING);
        };
        let Ok(last) = i64::try_from(high_bound(high_strict, high)) else {
            return Members::Run(NOTHING);
        };
        Members::Run(Run {
            next,
            last,
            ended: false,
        })
    }

    /// Takes the first member.
    pub(crate) fn next(&mut self) -> Option<i64>
        ensures { IsNext result (members_seen self.old) (members_seen self.new) }
    {
        match self {
            Members::Listed(listed) => listed.next(),
            Members::Run(run) => run.next(),
        }
    }
}
