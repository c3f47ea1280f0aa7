//! The order of obligations.

ghost use Rattle.std.specs.Prelude.{◌≡◌};
ghost use Rattle.witness_check.specs.Order.{obligation_at, of_part};

use truth_witness::Obligation;

/// The obligation at a place, from 0: three of the whole, then three of each part.
pub(crate) fn obligation_at(place: usize) -> Obligation
    ensures { result ≡ obligation_at place }
{
    if place == 0 {
        return Obligation::Base;
    }
    if place == 1 {
        return Obligation::Keep;
    }
    if place == 2 {
        return Obligation::Cover;
    }
    of_part(place - 3)
}

/// The obligation at a place among those of parts.
fn of_part(place: usize) -> Obligation
    ensures { result ≡ of_part place }
{
    if place % 3 == 0 {
        return Obligation::Enter(place / 3);
    }
    if place % 3 == 1 {
        return Obligation::Stay(place / 3);
    }
    Obligation::Fall(place / 3)
}
