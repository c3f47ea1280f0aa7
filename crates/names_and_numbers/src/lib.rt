//! Text as bytes: names, a cursor over bytes, and decimal numbers.
//!
//! A name is its list of bytes, a cursor is the bytes that were taken and those that are left, and
//! `read_number` reads what `push_number` writes. Nothing here knows what the bytes are a text of.
//! Stands on `itoa` and std alone.
#![tactic(auto)]

mod cursor;
mod laws;
mod name;
mod number;

pub use cursor::Cursor;
pub use laws::{decimal_is_the_one_numeral, numeral_is_read_back};
pub use name::Name;
pub use number::{NumberFault, push_number, read_number};
