//! Witnesses over the truth of a formula's parts: that a formula is true on no run lasso of a circuit is shown by propositional
//! obligations, without letters and without an automaton. `specs/` says what a witness is, which base clauses its obligations have,
//! and when it is proved. The contract above this layer is a law: where each obligation has a closed log, the formula is true on no
//! run lasso of the circuit, whichever side it plays. It stands on circuits, formulas, clauses and logs.
#![tactic(auto)]

pub mod laws;
mod logs;
mod witnesses;

pub use logs::ObligationLog;
pub use witnesses::{MAX_INDEX_BITS, MAX_RANK_BITS, Obligation, Operands, Part, Witness};
