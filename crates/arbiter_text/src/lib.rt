//! The text of an arbiter of any number of clients.
//!
//! `write_arbiter` appends exactly the bytes that the definition in `specs/` gives, a specification in TLSF in which only
//! the number of clients changes. Stands on `names_and_numbers` for the number's digits.
#![tactic(auto)]

mod arbiter;

pub use arbiter::write_arbiter;
