//! The words and signs of TLSF, and the classes of bytes that they are made of.

ghost use Rattle.std.specs.Prelude.{◌≡◌, map};
ghost use Rattle.std.specs.List.{find, list_any};
ghost use Rattle.std.specs.Option.{option_map};
ghost use Rattle.std.specs.Str.{bytes_eq};
ghost use Rattle.tlsf_tokens.specs.Words as spec;
ghost use Rattle.tlsf_tokens.specs.Words.{signs, symbol_in, words};
ghost use Rattle.tlsf_tokens.specs.Pieces.{word_piece};

use crate::symbol::{Section, Symbol};
use crate::token::Piece;
use spec_faults::SpecCode;

/// Longer signs stand first.
const SIGNS: [(&[u8], Symbol); 31] = [
    (b"(*)", Symbol::Meet),
    (b"(+)", Symbol::Join),
    (b"(-)", Symbol::Difference),
    (b"(\\)", Symbol::Difference),
    (b"<->", Symbol::Equiv),
    (b"..", Symbol::Dots),
    (b"==", Symbol::Equal),
    (b"!=", Symbol::Unequal),
    (b"<=", Symbol::LessEqual),
    (b">=", Symbol::GreaterEqual),
    (b"&&", Symbol::And),
    (b"||", Symbol::Or),
    (b"->", Symbol::Implies),
    (b"{", Symbol::OpenBrace),
    (b"}", Symbol::CloseBrace),
    (b"(", Symbol::OpenParen),
    (b")", Symbol::CloseParen),
    (b"[", Symbol::OpenBracket),
    (b"]", Symbol::CloseBracket),
    (b",", Symbol::Comma),
    (b";", Symbol::Semicolon),
    (b":", Symbol::Colon),
    (b"=", Symbol::Assign),
    (b"<", Symbol::Less),
    (b">", Symbol::Greater),
    (b"+", Symbol::Plus),
    (b"-", Symbol::Minus),
    (b"*", Symbol::Star),
    (b"/", Symbol::Slash),
    (b"%", Symbol::Percent),
    (b"!", Symbol::Not),
];

const WORDS: [(&[u8], Symbol); 41] = [
    (b"NOT", Symbol::Not),
    (b"AND", Symbol::And),
    (b"OR", Symbol::Or),
    (b"IMPLIES", Symbol::Implies),
    (b"EQUIV", Symbol::Equiv),
    (b"INFO", Symbol::Info),
    (b"TITLE", Symbol::Title),
    (b"DESCRIPTION", Symbol::Description),
    (b"SEMANTICS", Symbol::Semantics),
    (b"TARGET", Symbol::Target),
    (b"TAGS", Symbol::Tags),
    (b"GLOBAL", Symbol::Global),
    (b"PARAMETERS", Symbol::Parameters),
    (b"DEFINITIONS", Symbol::Definitions),
    (b"MAIN", Symbol::Main),
    (b"INPUTS", Symbol::Inputs),
    (b"OUTPUTS", Symbol::Outputs),
    (b"INITIALLY", Symbol::Section(Section::Initially)),
    (b"PRESET", Symbol::Section(Section::Preset)),
    (b"REQUIRE", Symbol::Section(Section::Require)),
    (b"REQUIREMENTS", Symbol::Section(Section::Require)),
    (b"ASSERT", Symbol::Section(Section::Assert)),
    (b"ASSERTIONS", Symbol::Section(Section::Assert)),
    (b"INVARIANTS", Symbol::Section(Section::Assert)),
    (b"ASSUME", Symbol::Section(Section::Assume)),
    (b"ASSUMPTIONS", Symbol::Section(Section::Assume)),
    (b"GUARANTEE", Symbol::Section(Section::Guarantee)),
    (b"GUARANTEES", Symbol::Section(Section::Guarantee)),
    (b"true", Symbol::True),
    (b"false", Symbol::False),
    (b"X", Symbol::Next),
    (b"F", Symbol::Finally),
    (b"G", Symbol::Globally),
    (b"U", Symbol::Until),
    (b"R", Symbol::Release),
    (b"W", Symbol::WeakUntil),
    (b"IN", Symbol::In),
    (b"SIZEOF", Symbol::SizeOf),
    (b"OTHERWISE", Symbol::Otherwise),
    (b"otherwise", Symbol::Otherwise),
    (b"enum", Symbol::Enum),
];

const UNSUPPORTED_WORDS: [&[u8]; 22] = [
    b"SUM",
    b"PROD",
    b"MIN",
    b"MAX",
    b"SIZE",
    b"PLUS",
    b"MINUS",
    b"MUL",
    b"DIV",
    b"MOD",
    b"CAP",
    b"CUP",
    b"SETMINUS",
    b"EQ",
    b"NEQ",
    b"LE",
    b"LEQ",
    b"GE",
    b"GEQ",
    b"ELEM",
    b"FORALL",
    b"EXISTS",
];

pub(crate) fn is_blank(b: u8) -> bool
    ensures { result ≡ spec.is_blank b }
{
    b == b' ' || b == b'\t' || b == b'\r' || b == b'\n'
}

pub(crate) fn is_name_start(b: u8) -> bool
    ensures { result ≡ spec.is_name_start b }
{
    b.is_ascii_alphabetic() || b == b'_' || b == b'@'
}

pub(crate) fn is_name_part(b: u8) -> bool
    ensures { result ≡ spec.is_name_part b }
{
    is_name_start(b) || b.is_ascii_digit() || b == b'\''
}

fn is_among(table: &[&[u8]], word: &[u8]) -> bool
    ensures { result ≡ list_any (λ known. bytes_eq word.now known.now) table.now }
{
    table.iter().any(|known| word == *known)
}

fn find_symbol(table: &[(&[u8], Symbol)], word: &[u8]) -> Option<Symbol>
    ensures { result ≡ option_map (λ entry. entry.1) (find (λ entry. bytes_eq word.now entry.0.now) table.now) }
{
    table
        .iter()
        .find(|(known, _)| word == *known)
        .map(|(_, symbol)| *symbol)
}

/// What the first entry of the word means.
fn symbol_in(table: &[(&[u8], Symbol)], word: &[u8]) -> Option<Symbol>
    ensures { result ≡ symbol_in (map (λ entry. (entry.0.now, entry.1)) table.now) word.now }
{
    find_symbol(table, word)
}

/// Which sign these bytes are.
#[tactic(auto, unfolding(crate::specs::Words::signs))]
pub(crate) fn sign(word: &[u8]) -> Option<Symbol>
    ensures { result ≡ symbol_in signs word.now }
{
    symbol_in(&SIGNS, word)
}

#[tactic(auto, unfolding(crate::specs::Words::words))]
fn word_symbol(word: &[u8]) -> Option<Symbol>
    ensures { result ≡ symbol_in words word.now }
{
    symbol_in(&WORDS, word)
}

#[tactic(auto, unfolding(crate::specs::Words::unsupported_words))]
fn is_unsupported(word: &[u8]) -> bool
    ensures { result ≡ spec.is_among spec.unsupported_words word.now }
{
    is_among(&UNSUPPORTED_WORDS, word)
}

/// What a whole name is.
pub(crate) fn word_piece(word: &[u8]) -> Piece
    ensures { result ≡ word_piece word.now }
{
    if is_unsupported(word) {
        return Piece::Fault(SpecCode::Unsupported);
    }
    match word_symbol(word) {
        Some(symbol) => Piece::Token(symbol),
        None => Piece::Token(Symbol::Ident),
    }
}
