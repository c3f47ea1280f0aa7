//! The word `Finite` where a word of the value of SEMANTICS is wanted.

ghost use Rattle.std.specs.Prelude.{◌≡◌, map};
ghost use Rattle.tlsf_reader.specs.Seen.{seen};
ghost use Rattle.tlsf_reader.specs.Assembly.{is_finite, first_finite_word, second_finite_word, finite_in_front};
ghost use Rattle.tlsf_reader.specs.Least.{IsLeast};
ghost use Rattle.tlsf_reader.specs.Places.{FiniteAt};

use crate::least::least;
use crate::lexeme::Lexeme;
use crate::rest::begins;
use tlsf_tokens::Symbol;

/// Whether a lexeme is the name `Finite`.
fn is_finite_word(lexeme: Lexeme<'_>) -> bool
    ensures { result ≡ is_finite (seen lexeme.entry) }
{
    lexeme.symbol == Symbol::Ident && lexeme.text == b"Finite".as_slice()
}

/// The first byte of the first word of a value that stands in front behind its field's word, where it is `Finite`.
fn first_word(front: &[Lexeme<'_>]) -> Option<u64>
    ensures { result ≡ first_finite_word (map seen front.now) }
{
    match front {
        [_, colon, word, ..] => {
            if colon.symbol == Symbol::Colon && is_finite_word(*word) {
                Some(word.start)
            } else {
                None
            }
        }
        _ => None,
    }
}

/// The same of the second word.
fn second_word(front: &[Lexeme<'_>]) -> Option<u64>
    ensures { result ≡ second_finite_word (map seen front.now) }
{
    match front {
        [_, colon, _, comma, word, ..] => {
            if colon.symbol == Symbol::Colon
                && comma.symbol == Symbol::Comma
                && is_finite_word(*word)
            {
                Some(word.start)
            } else {
                None
            }
        }
        _ => None,
    }
}

/// The same of both words, where SEMANTICS stands in front.
fn in_front(front: &[Lexeme<'_>]) -> Option<u64>
    ensures { result ≡ finite_in_front (map seen front.now) }
{
    if begins(Symbol::Semantics, front) {
        least(first_word(front), second_word(front))
    } else {
        None
    }
}

/// The first byte of the first word `Finite` in the value of a field SEMANTICS.
pub(crate) fn first_finite(lexemes: &[Lexeme<'_>]) -> Option<u64>
    ensures { IsLeast (FiniteAt (map seen lexemes.now)) result }
{
    let mut found = None;
    let mut left = lexemes;
    while let [_, rest @ ..] = left {
        found = least(found, in_front(left));
        left = rest;
    }
    found
}
