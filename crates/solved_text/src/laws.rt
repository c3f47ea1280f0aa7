//! Laws of documents of version 6, each the contract of a function that does nothing.
ghost use Rattle.solved_text.specs.Laws.{SolvedAreDetermined};

/// Bytes are read in one way, and state one document exactly where no line is bad; else one line is the first bad one.
pub fn solved_are_determined()
    ensures { SolvedAreDetermined }
{}
