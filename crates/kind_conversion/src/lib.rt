//! Texts whose SEMANTICS and TARGET are different kinds: the formulas with X before each input, or before each output. The
//! contract above this layer: `converted` makes the list that the definition says, and the new whole says of a word what
//! the whole as written says of the word in which those signals come one letter earlier. It stands on ltl_formula for
//! lists of formulas and their truth, and on letters_and_lassos for lassos.
#![tactic(auto)]

mod conversion;
pub mod laws;
mod shifts;
#[cfg(test)]
mod tests;

pub use conversion::{ConvertedList, converted};
pub use shifts::{Shift, shift_of};
