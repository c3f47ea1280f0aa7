//! Whether a witness is proved: each of its obligations has a closed log. The contract above
//! this layer: a yes means that the formula is true on no run lasso of the circuit, and a no names the first log that is refused, and
//! why. It stands on witness_clauses, which lists the base clauses, and on log_checker.
#![tactic(auto)]

mod bases;
mod check;
mod faults;
mod order;

pub use check::{check_first_logs, check_logs};
pub use faults::{ObligationFault, WitnessFault};
