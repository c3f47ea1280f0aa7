//! Laws of annotations over named states. Each is the contract of a function that does nothing.

ghost use Rattle.named_annotation.specs.Laws.{NamedReadingsAreApart, ValidNamedListsShow};

use cobuchi_build::laws::true_formulas_have_paths;

/// Where a valid annotation over named states is stated, the formula is true on no run lasso of the circuit that plays the side.
pub fn valid_named_lists_show()
    ensures { ValidNamedListsShow }
{
    true_formulas_have_paths();
}

/// A text states at most one annotation over named states, has at most one first bad line, and not both.
pub fn named_readings_are_apart()
    ensures { NamedReadingsAreApart }
{}
