//! Which of two covers asks for less.
ghost use Rattle.std.specs.Prelude.{◌≡◌};
ghost use Rattle.obligation_sets.specs.Reduced.{asks_no_more, is_part};

use crate::sets::Cover;

impl Cover {
    /// Whether the cover's cube, what it leaves and what it puts off are parts of the other's.
    pub(crate) fn asks_no_more(&self, other: &Cover) -> bool
        ensures { result ≡ asks_no_more self.now other.now }
    {
        is_part(self.cube.must, other.cube.must)
            && is_part(self.cube.not, other.cube.not)
            && self.next.is_within(&other.next)
            && self.postponed.is_within(&other.postponed)
    }
}

/// Whether each signal of a set is in another.
fn is_part(signals: u64, others: u64) -> bool
    ensures { result ≡ is_part signals others }
{
    signals & others == signals
}
