//! Laws of the definitions, which no code needs.
ghost use Rattle.solve_ground.specs.Laws.{SolveTextsAreDetermined, TextsAreDetermined};

/// A text is one thing as `solve` takes it, or has one first fault.
pub fn solve_texts_are_determined()
    ensures { SolveTextsAreDetermined }
{}

/// The same within any limits.
pub fn texts_are_determined()
    ensures { TextsAreDetermined }
{}
