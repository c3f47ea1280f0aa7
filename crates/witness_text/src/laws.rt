//! Laws of the text of witnesses, each the contract of a function that does nothing.
ghost use Rattle.witness_text.specs.Laws.{WitnessesAreDetermined};

/// Bytes are read in one way, and state one witness with its logs exactly where no line is bad; else one line is the first bad one.
pub fn witnesses_are_determined()
    ensures { WitnessesAreDetermined }
{}
