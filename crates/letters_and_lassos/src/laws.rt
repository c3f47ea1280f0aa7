//! Laws of the positions of a lasso and of its infinite word. Each is the contract of a function that does nothing.

ghost use Rattle.letters_and_lassos.specs.Laws.{FuturesShift, LettersStayOver, StepsAddUp, StepsStayWithin, UnrollingKeepsTheWord};

/// Steps stay among the positions.
pub fn steps_stay_within()
    ensures { StepsStayWithin }
{}

/// Steps add up, and lead round the ring.
pub fn steps_add_up()
    ensures { StepsAddUp }
{}

/// Any number of unrollings gives the same word.
pub fn unrolling_keeps_the_word()
    ensures { UnrollingKeepsTheWord }
{}

/// What follows two positions with one future is the same, letter by letter.
pub fn futures_shift()
    ensures { FuturesShift }
{}

/// The letters of a lasso over n signals are numbers below 2 to the n.
pub fn letters_stay_over()
    ensures { LettersStayOver }
{}
