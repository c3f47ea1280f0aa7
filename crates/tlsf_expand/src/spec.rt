//! The flat form of a text.

use letters_and_lassos::Kind;
use ltl_formula::{FormulaId, Formulas};
use names_and_numbers::Name;
use tlsf_syntax::Sections;

/// A text expanded.
#[derive(Debug, Drop)]
pub struct Spec {
    /// The flat names of the inputs, by the numbers of their signals, which begin with 0.
    pub inputs: Vec<Name>,
    /// The flat names of the outputs, whose signals come after those of the inputs.
    pub outputs: Vec<Name>,
    pub kind: Kind,
    pub strict: bool,
    /// The list that all flat formulas stand in.
    pub formulas: Formulas,
    /// The flat formulas of each section in their order.
    pub sections: Sections<Vec<FormulaId>>,
    /// The formula of the whole text.
    pub whole: FormulaId,
}
