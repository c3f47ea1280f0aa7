//! What bounds say of a whole witness. Each law is the contract of a function that does nothing.

ghost use Rattle.witness_bounds.specs.Laws.{WitnessesAreBounded};

/// A witness is one for what is claimed exactly where no literal is out of its bound and its parts are as they have to be.
pub fn witnesses_are_bounded()
    ensures { WitnessesAreBounded }
{}
