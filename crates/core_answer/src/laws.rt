//! Laws of the definitions, which no code needs.

ghost use Rattle.core_answer.specs.Laws.{CoreFaultsAreDetermined, CoresCannotBeMet};

/// A text has at most one fault for `core`.
pub fn core_faults_are_determined()
    ensures { CoreFaultsAreDetermined }
{}

/// No machine satisfies a text with the guarantees that `core` tells.
pub fn cores_cannot_be_met()
    ensures { CoresCannotBeMet }
{}
