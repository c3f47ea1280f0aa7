//! Laws of the definitions, which no code needs.

ghost use Rattle.lasso_word.specs.Stated.{LettersHaveTheirNames, ReadingsAreApart, WordsAreStated};

/// What is read line by line is what the text states as a whole.
pub fn words_are_stated()
    ensures { WordsAreStated }
{}

/// A text states at most one word, has at most one first bad line, and not both.
pub fn readings_are_apart()
    ensures { ReadingsAreApart }
{}

/// The letter that a line states has exactly the signals that the line names.
pub fn letters_have_their_names()
    ensures { LettersHaveTheirNames }
{}
