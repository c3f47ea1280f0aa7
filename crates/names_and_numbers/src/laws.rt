//! Laws of the definitions, as contracts of functions that do nothing.
ghost use Rattle.names_and_numbers.specs.Numerals.{NumeralLaw, ReadBackLaw};

/// The digits that are written of a number below 2^64 are its numeral, and it has no other.
pub fn decimal_is_the_one_numeral()
    ensures { NumeralLaw }
{}

/// What is written of a number is read as that number, up to its last digit, if no digit follows.
pub fn numeral_is_read_back()
    ensures { ReadBackLaw }
{}
