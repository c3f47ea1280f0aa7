//! Sets of up to 128 obligations.

/// A set of obligations, by their numbers.
#[derive(Clone, Copy, Debug, PartialEq, Eq, PartialOrd, Ord, Hash)]
pub(crate) struct Obligations {
    low: u64,
    high: u64,
}

/// There are so many obligations.
pub(crate) const MOST_OBLIGATIONS: usize = 128;

impl Obligations {
    pub(crate) const NONE: Obligations = Obligations { low: 0, high: 0 };

    /// The set of one.
    pub(crate) fn of(number: u32) -> Obligations {
        if number < 64 {
            Obligations {
                low: 1 << number,
                high: 0,
            }
        } else {
            Obligations {
                low: 0,
                high: 1u64.checked_shl(number - 64).unwrap_or(0),
            }
        }
    }

    pub(crate) fn has(self, number: u32) -> bool {
        Obligations::of(number).is_within(self)
    }

    pub(crate) fn is_within(self, other: Obligations) -> bool {
        self.low & !other.low == 0 && self.high & !other.high == 0
    }

    pub(crate) fn and(self, other: Obligations) -> Obligations {
        Obligations {
            low: self.low | other.low,
            high: self.high | other.high,
        }
    }

    pub(crate) fn without(self, other: Obligations) -> Obligations {
        Obligations {
            low: self.low & !other.low,
            high: self.high & !other.high,
        }
    }
}
