//! The conjuncts of a formula that says: where the assumptions hold, the guarantees do. `conjuncts_of` takes such a formula in normal form
//! apart, with rewritings that keep what it means and make the monitors of its conjuncts small. Proved is that it is safe and returns;
//! that each rewriting keeps the truth is tested on lassos. It stands on ltl_formula.
#![tactic(auto)]

mod apart;
mod flattening;
mod forms;
mod passes;
mod refusals;
mod rewriting;
mod shapes;
mod taking;

pub use forms::{Form, FormId, Forms, Operators};
pub use refusals::Refusal;
pub use shapes::{Class, Conjunct, Conjuncts, conjuncts_of};
