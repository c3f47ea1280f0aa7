//! Laws of limits. Each is the contract of a function that does nothing.

ghost use Rattle.limit_laws.specs.Forms.{LargerListsKeepForms};
ghost use Rattle.limit_laws.specs.Laws.{WiderLimitsKeepTexts};
ghost use Rattle.limit_laws.specs.Taken.{SmallTextsAreTaken, TakenTextsWantTheSame};

/// Wider limits take no text away, and change neither its flat form nor what it says of a lasso.
pub fn wider_limits_keep_texts()
    ensures { WiderLimitsKeepTexts }
{}

/// What fits into a list of at most so many nodes is made in one of more too, with the same nodes and ids.
pub fn larger_lists_keep_forms()
    ensures { LargerListsKeepForms }
{}

/// A text that has no first fault has none as `solve` takes it.
pub fn small_texts_are_taken()
    ensures { SmallTextsAreTaken }
{}

/// What `synth` wants of a text is what `solve` wants of it.
pub fn taken_texts_want_the_same()
    ensures { TakenTextsWantTheSame }
{}
