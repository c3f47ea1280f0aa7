//! Laws of the definitions, which no code needs.

ghost use Rattle.unrealizable_core.specs.Cut.{CutTextsMean};
ghost use Rattle.unrealizable_core.specs.Laws.{KeptAreNeeded, QuestionsAreFew};
ghost use Rattle.unrealizable_core.specs.WholeLaws.{AllKeptIsTheWhole, SectionsOfTextsStand};

/// The formulas of the sections of a text that is expanded stand in its list.
pub fn sections_of_texts_stand()
    ensures { SectionsOfTextsStand }
{}

/// With each guarantee kept the formula of the whole is the text's own.
pub fn all_kept_is_the_whole()
    ensures { AllKeptIsTheWhole }
{}

/// With the guarantees that are kept the flat sections of a text say what the written text says once its guarantees are cut.
pub fn cut_texts_mean()
    ensures { CutTextsMean }
{}

/// However the questions about so many numbers are answered, there are at most as many as the sum of the numbers.
pub fn questions_are_few()
    ensures { QuestionsAreFew }
{}

/// Where no question is left, each number that is kept was answered false when just those that are kept in the end were kept.
pub fn kept_are_needed()
    ensures { KeptAreNeeded }
{}
