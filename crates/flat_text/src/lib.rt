//! A whole text from its bytes to its flat sections: reading and expansion joined under one contract over the bytes. What a
//! text is, flat, and which of its faults comes first, are definitions in `specs/`, with laws that a text is one thing.
//! It stands on tlsf_reader for the tree of a text, and on tlsf_expand for the flat sections of a tree.
#![tactic(auto)]

pub mod laws;
mod text;

pub use text::expand_text;
