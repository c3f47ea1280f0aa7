//! The reader of TLSF: the one tree of a text, or its first fault. Which tree a text has, and which fault of reading
//! comes first, is defined in `specs/`; `laws` says that no text has two trees, nor a tree and a fault. `read` ensures
//! one of the two, exactly. Below it: the lexemes of a text, a recursive descent with one token of look-ahead over
//! them, and the faults that are looked for beside it. It stands on tlsf_tokens, tlsf_syntax, letters_and_lassos and
//! names_and_numbers.
#![tactic(auto)]

mod ahead;
mod assemble;
mod definition;
mod enumeration;
mod expression;
mod fault;
mod finite;
mod info;
pub mod laws;
mod least;
mod lexeme;
mod node;
mod reading;
mod repeat;
mod rest;
mod section;
mod signs;
mod text;
mod written;

pub use reading::{MOST_BYTES, read};
