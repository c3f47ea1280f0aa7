//! The operators of sets.

ghost use Rattle.std.specs.Prelude.{◌≡◌, IfOk};
ghost use Rattle.tlsf_values.specs.SetOperations.{behind, combined, first_of, is_first, keeps};
ghost use Rattle.tlsf_values.specs.Sets.{set_of};

use std::alloc::{AllocError, Global};

/// An operator on two sets of numbers.
#[derive(Clone, Copy, Debug, PartialEq, Eq)]
pub enum SetOperation {
    Join,
    Meet,
    Difference,
}

impl SetOperation {
    /// Whether it keeps a number, by which of its operands have it.
    fn keeps(self, left: bool, right: bool) -> bool
        ensures { result ≡ keeps self left right }
    {
        match self {
            SetOperation::Join => left || right,
            SetOperation::Meet => left && right,
            SetOperation::Difference => left && !right,
        }
    }

    /// What it keeps of two lists that rise, in one pass.
    pub(crate) fn merged(
        self,
        alloc: Global,
        left: &[i64],
        right: &[i64],
    ) -> Result<Vec<i64>, AllocError>
        requires left { set_of left.now ≡ left.now }
        requires right { set_of right.now ≡ right.now }
        ensures { IfOk result (λ v. v.items ≡ combined self left.now right.now) }
    {
        let mut kept = Vec::new(alloc);
        let mut left = left;
        let mut right = right;
        while let Some(number) = first_of(left, right) {
            if self.keeps(is_first(number, left), is_first(number, right)) {
                kept.push(number)?;
            }
            left = behind(number, left);
            right = behind(number, right);
        }
        Ok(kept)
    }
}

/// The least number that stands first in one of two lists.
fn first_of(left: &[i64], right: &[i64]) -> Option<i64>
    ensures { result ≡ first_of left.now right.now }
{
    match (left, right) {
        ([], []) => None,
        ([first, ..], []) => Some(*first),
        ([], [first, ..]) => Some(*first),
        ([first, ..], [other, ..]) => Some(if other < first { *other } else { *first }),
    }
}

/// Whether the number stands first in the list.
fn is_first(number: i64, list: &[i64]) -> bool
    ensures { result ≡ is_first number list.now }
{
    match list {
        [first, ..] => number == *first,
        [] => false,
    }
}

/// The list behind the number, where it stands first.
fn behind(number: i64, list: &[i64]) -> &[i64]
    ensures { result.now ≡ behind number list.now }
{
    if is_first(number, list) {
        &list[1..]
    } else {
        list
    }
}
