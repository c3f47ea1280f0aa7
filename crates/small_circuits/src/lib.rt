//! Circuits with fewer gates that do the same: `small_circuit` reads what a circuit does in the states that it reaches, and makes another one
//! by better codes and nets. Proved is that it is safe and returns; who uses it tests what it gives. It stands on state_codes and
//! circuit_steps.
#![tactic(auto)]

mod making;
mod reached;
mod texts;

pub use making::{Effort, small_circuit};
pub use reached::{Reached, reached_by};
pub use texts::circuit_of;
