//! Laws of shifted words and forms. Each is the contract of a function that does nothing.

ghost use Rattle.kind_conversion.specs.Laws.{ConvertedListsSay, ShiftedFormsSay, ShiftedWordsAreWords};

/// The shifted lasso is the shifted word.
pub fn shifted_words_are_words()
    ensures { ShiftedWordsAreWords }
{}

/// The shifted form says of a word what the formula says of the shifted word.
pub fn shifted_forms_say()
    ensures { ShiftedFormsSay }
{}

/// The list that is made anew has the shifted form of the whole, and no further signals.
pub fn converted_lists_say()
    ensures { ConvertedListsSay }
{}
