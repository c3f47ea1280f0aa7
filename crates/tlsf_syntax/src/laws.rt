//! Laws of the grammar, which no code needs.

ghost use Rattle.tlsf_syntax.specs.Expressions.{SpansAreWhole};
ghost use Rattle.tlsf_syntax.specs.Reading.{ExpressionsAreReadExactly, ExpressionsHaveOneTree};
ghost use Rattle.tlsf_syntax.specs.Rows.{RowsDerive};
ghost use Rattle.tlsf_syntax.specs.TextReading.{TextsAreReadExactly, TextsHaveOneTree};
ghost use Rattle.tlsf_syntax.specs.Texts.{NoTextIsFinite, UnexpectedIsDetermined};

/// The span of each expression runs from its first byte to the byte after its last.
pub fn spans_are_whole()
    ensures { SpansAreWhole }
{}

/// The worked rows have their trees: `a -> b U c` is `(a -> b) U c`, and `a - b - c` is one node.
pub fn rows_derive()
    ensures { RowsDerive }
{}

/// No list of lexemes has two trees of one level.
pub fn expressions_have_one_tree()
    ensures { ExpressionsHaveOneTree }
{}

/// No list of lexemes is two texts.
pub fn texts_have_one_tree()
    ensures { TextsHaveOneTree }
{}

/// The first unexpected lexeme is determined, and a text has none.
pub fn unexpected_is_determined()
    ensures { UnexpectedIsDetermined }
{}

/// The grammar of expressions as a reader on lists reads exactly what the grammar derives.
pub fn expressions_are_read_exactly()
    ensures { ExpressionsAreReadExactly }
{}

/// The grammar of texts as a reader on lists reads exactly the texts, and refuses at the first unexpected lexeme.
pub fn texts_are_read_exactly()
    ensures { TextsAreReadExactly }
{}

/// No text of the grammar has the word `Finite` in the value of SEMANTICS.
pub fn no_text_is_finite()
    ensures { NoTextIsFinite }
{}
