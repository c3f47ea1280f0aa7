//! Laws of the definitions, which no code needs.

ghost use Rattle.flat_text.specs.FlatNames.{FlatNamesAreWords};
ghost use Rattle.flat_text.specs.Kinds.{KindsOfTexts};
ghost use Rattle.flat_text.specs.Laws.{FlatFaultsAreDetermined, FlatTextsAreDetermined, FlatTextsHaveNoFault};

/// No text is two things, flat.
pub fn flat_texts_are_determined()
    ensures { FlatTextsAreDetermined }
{}

/// A text that is expanded has no fault.
pub fn flat_texts_have_no_fault()
    ensures { FlatTextsHaveNoFault }
{}

/// A text has at most one first fault.
pub fn flat_faults_are_determined()
    ensures { FlatFaultsAreDetermined }
{}

/// The flat names of a text's signals aren't empty, and hold no blank and no line end.
pub fn flat_names_are_words()
    ensures { FlatNamesAreWords }
{}

/// A flat text has the kind that its text is taken with, and is the same with another one but for its kind.
pub fn kinds_of_texts()
    ensures { KindsOfTexts }
{}
