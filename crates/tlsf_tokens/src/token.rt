//! What a text is cut into.

use crate::symbol::Symbol;
use spec_faults::SpecCode;

/// A token by its place: from its first byte to the byte after its last. Its text is that slice of the source.
#[derive(Clone, Copy, Debug, PartialEq, Eq)]
pub struct Token {
    pub symbol: Symbol,
    pub start: u64,
    pub end: u64,
}

/// The tokens before `stop_at`, and why the list ends there.
#[derive(Debug, Drop)]
pub struct TokenList {
    pub tokens: Vec<Token>,
    /// `None` where the whole text is cut, else `BadByte`, `Unclosed` or `Unsupported`.
    pub stop: Option<SpecCode>,
    /// The place of that fault, or the text's length.
    pub stop_at: u64,
}

/// What some bytes are, taken as a whole.
#[derive(Clone, Copy, Debug, PartialEq, Eq)]
pub enum Piece {
    /// A blank or a whole comment.
    Gap,
    Token(Symbol),
    /// An opener that isn't closed, or what TLSF has and this profile refuses.
    Fault(SpecCode),
}

/// The longest piece at the front of a text, and how many bytes it has.
#[derive(Clone, Copy, Debug, PartialEq, Eq)]
pub struct Front {
    pub piece: Piece,
    pub len: usize,
}
