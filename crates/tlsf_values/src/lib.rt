//! The values of written expressions. What an expression's value is, and which fault comes first where it has none,
//! is a definition in `specs/`: one recursion on the depth that is left, over plain trees.
//! It stands on tlsf_syntax for the written tree and its plain form, spec_faults for the numbered faults, names_and_numbers for
//! names, and ltl_formula for the list of flat formulas.
#![tactic(auto)]

mod apply;
mod counts;
mod evaluate;
mod evaluate_operands;
mod formula;
pub mod laws;
mod levels;
mod members;
mod names;
mod number_set;
mod numbers;
mod operate;
mod patterns;
mod scope;
mod section;
mod set_operation;
mod steps;
mod text_value;
mod value;
mod work;

pub use formula::{Connective, Formula, Pairing, Sign};
pub use names::Names;
pub use number_set::NumberSet;
pub use numbers::{Arithmetic, Comparison, Places};
pub use set_operation::SetOperation;
pub use text_value::{Env, Meter, value_of};
pub use value::Value;
pub use work::{MOST_DEPTH, MOST_EVALUATIONS, Work};
