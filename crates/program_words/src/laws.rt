//! Laws of the definitions, which no code needs.
ghost use Rattle.program_words.specs.Plain.{PlainWordsAreRead};

/// Words of the plain form ask for what they say.
pub fn plain_words_are_read()
    ensures { PlainWordsAreRead }
{}
