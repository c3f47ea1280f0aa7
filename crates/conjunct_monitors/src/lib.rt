//! Deterministic monitors of conjuncts, over decision diagrams of letters. A state of a monitor is a set of alternatives, each a set of
//! obligations; what is asked again and again has a breakpoint beside. Each monitor sees the signals that its conjunct names alone. Proved
//! is that it is safe and returns. It stands on conjuncts.
#![tactic(auto)]

mod alternatives;
mod diagrams;
mod expansions;
mod monitors;
mod obligations;
mod stops;

pub use diagrams::{Diagram, Diagrams, End, Order};
pub use monitors::{BROKEN, MET, Monitor};
pub use stops::{Budget, Limit, Meter, Stop, Usage};
