use circuit_names::TextNames;
use letters_and_lassos::{Kind, Side};
use ltl_formula::{FormulaId, Formulas};

/// What a circuit owes to a text whose side it plays.
#[derive(Clone, Copy)]
pub struct Duty<'a> {
    /// The names of what the circuit reads, as inputs, and of what it writes, as outputs.
    pub names: TextNames<'a>,
    pub side: Side,
    /// The circuit's own kind.
    pub kind: Kind,
    /// What the circuit keeps from being true: a formula in normal form, and the list in which it stands.
    pub formulas: &'a Formulas,
    pub form: FormulaId,
}
