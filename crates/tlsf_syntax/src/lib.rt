//! TLSF's syntax: the written tree of a text, the grammar that says which lists of lexemes derive which trees, and written nesting, a
//! number of each symbol that bounds how deep a reader has to go. The grammar and its laws are definitions over plain trees, and
//! `Seen` in `specs/` says which plain tree the code's is; `first_too_deep` finds the first symbol whose number passes the limit. It
//! stands on tlsf_tokens, names_and_numbers and letters_and_lassos.
#![tactic(auto)]

mod expr;
pub mod laws;
mod level;
mod nesting;
mod sections;
mod spec;

pub use expr::{Expr, Form, Link, Op, Range, Span, Word};
pub use level::{Joins, Level};
pub use nesting::{LIMIT, first_too_deep};
pub use sections::Sections;
pub use spec::{
    Alternative, Body, Declaration, Definition, Info, Member, Pattern, Shape, SpecTree,
};
