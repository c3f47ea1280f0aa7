//! Laws of the definitions, which no code needs.

ghost use Rattle.spec_problems.specs.Laws.{ProblemsOfFormulasAreDetermined, ProblemsOfTextsAreDetermined};

/// A formula has one pair of problems, or one fault.
pub fn problems_of_formulas_are_determined()
    ensures { ProblemsOfFormulasAreDetermined }
{}

/// A text has one pair of problems, or one first fault.
pub fn problems_of_texts_are_determined()
    ensures { ProblemsOfTextsAreDetermined }
{}
