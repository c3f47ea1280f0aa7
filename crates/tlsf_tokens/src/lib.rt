//! The bottom layer of reading TLSF: a text is cut into tokens, each with its symbol and its span, up to the first place where no
//! token begins. `tokens` ensures that its list is `Cuts` of the text, a relation on bytes that says what stands at a place: the
//! longest piece there. It stands on spec_faults for the numbers of faults.
#![tactic(auto)]

pub mod laws;
mod scan;
mod symbol;
mod token;
mod words;

pub use scan::tokens;
pub use symbol::{Section, Symbol};
pub use token::{Front, Piece, Token, TokenList};
