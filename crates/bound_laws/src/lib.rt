//! The law that answers of `synth` and documents of `solve` agree: what both say of one text can be true together.
//!
//! Stands on synth_answer and solve_check for what each says, and on limit_laws for what a text wants of machines within either's limits.
#![tactic(auto)]

pub mod laws;
#[cfg(test)]
mod tests;
