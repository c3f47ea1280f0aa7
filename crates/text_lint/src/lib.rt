//! What a text says that is legal and seldom meant: an operator that binds otherwise than it looks, a formula of the first step alone, a signal
//! of which nothing speaks, an assumption over outputs alone, a formula that is true or false by itself, and an empty window.
//!
//! `lint_of` finds these by the tokens of a text, each with its line and what it means as written. It promises safety. A text that isn't
//! refused is expected; of one whose tokens end early it says nothing. Stands on tlsf_tokens.
#![tactic(auto)]

mod binding;
mod formulas;
mod lint;
mod rules;

pub use lint::{Lint, lint_of};
