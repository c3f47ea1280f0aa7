//! The law, the contract of a function that does nothing.
ghost use Rattle.taken_laws.specs.Laws.{OwnKindsAreGiven};

use tlsf_reader::laws::{trees_are_determined, trees_have_no_fault};

/// A text that is taken by its own kinds has no fault with the kind of its machines given, and where it isn't converted it is the same so.
pub fn own_kinds_are_given()
    ensures { OwnKindsAreGiven }
{
    trees_are_determined();
    trees_have_no_fault();
}
