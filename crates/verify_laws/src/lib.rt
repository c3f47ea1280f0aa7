//! A law about `verify`: what the test of documents of version 6 accepts of a text, `verify` verifies for it with the same kind.
//!
//! Stands on the answers of `verify` and on the test of documents. No code needs it: it is the contract of a function that does nothing.
#![tactic(auto)]

pub mod laws;
