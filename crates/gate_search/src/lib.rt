//! Nets of few gates for a problem: a first one by decomposition or by sums of products, and smaller ones by substitutions that no target
//! sees. Proved is that it is safe and returns; what it gives is tested by who uses it. It stands on signal_nets.
#![tactic(auto)]

mod covers;
mod decomposition;
mod factors;
mod finding;
mod improving;
mod substitution;
mod surroundings;
mod wanted;
mod work;

pub use covers::net_of_products;
pub use decomposition::decomposed_net;
pub use improving::improved;
pub use work::Work;
