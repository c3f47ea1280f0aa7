//! The base clauses of a witness's obligations, listed in their order. The contract above this layer: `Claim` numbers the variables
//! of what is claimed, and lists what obligations share and what is each one's own, exactly as the definitions of truth_witness say;
//! by a law these clauses are a formula over the obligation's variables. It stands on truth_witness, circuits, formulas and clauses.
#![tactic(auto)]

mod claims;
mod falls;
mod frames;
mod ids;
pub mod laws;
mod literals;
mod making;
mod obligations;
mod steps;

pub use claims::{Claim, Claimed};
pub use ids::occurring;
pub use making::add_made;
