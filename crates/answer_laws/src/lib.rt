//! Laws that join the answers of several commands. The contract above this layer are its laws: what `synth`, `batch`, `core` and
//! `solve` print for a text, `check` accepts for that text. It stands on the crates that give these answers, and no code is in it.
#![tactic(auto)]

pub mod laws;
#[cfg(test)]
mod tests;
