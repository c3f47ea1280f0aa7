//! A text as the grammar sees it.

ghost use Rattle.std.specs.Prelude.{◌≡◌, All, map, IfOk};
ghost use Rattle.tlsf_reader.specs.Seen.{seen};
ghost use Rattle.tlsf_reader.specs.Lexed.{IsLexed, IsTokenOf, lexeme_from};

use spec_faults::SpecCode;
use std::alloc::{AllocError, Global};
use tlsf_tokens::{Symbol, Token, tokens};

/// A token with its text.
#[derive(Clone, Copy)]
pub(crate) struct Lexeme<'a> {
    pub symbol: Symbol,
    pub text: &'a [u8],
    pub start: u64,
    pub end: u64,
}

/// What the grammar sees of a token.
fn lexeme_at(text: &[u8], token: Token) -> Lexeme<'_>
    requires { IsTokenOf text.now token }
    ensures { seen result ≡ lexeme_from text.now token }
{
    Lexeme {
        symbol: token.symbol,
        text: &text[token.start as usize..token.end as usize],
        start: token.start,
        end: token.end,
    }
}

/// What the grammar sees of the tokens of a text.
fn lexemes<'a>(
    alloc: Global,
    text: &'a [u8],
    tokens: &[Token],
) -> Result<Vec<Lexeme<'a>>, AllocError>
    requires { All (IsTokenOf text.now) tokens.now }
    ensures { IfOk result (λ list. map seen list.items ≡ map (lexeme_from text.now) tokens.now) }
{
    let mut list = Vec::new(alloc);
    for token in tokens {
        list.push(lexeme_at(text, *token))?;
    }
    Ok(list)
}

/// The lexemes of a text, up to where its tokens stop.
#[derive(Drop)]
pub(crate) struct Lexed<'a> {
    pub lexemes: Vec<Lexeme<'a>>,
    /// Why the tokens stop, where they don't reach the text's end.
    pub stop: Option<SpecCode>,
    pub stop_at: u64,
}

/// What the grammar sees of a text. It takes time and memory in proportion to the text's length.
pub(crate) fn lex(alloc: Global, text: &[u8]) -> Result<Lexed<'_>, AllocError>
    ensures { IfOk result (λ list. IsLexed text.now list.stop list.stop_at (map seen list.lexemes.items)) }
{
    let list = tokens(alloc, text)?;
    let lexemes = lexemes(alloc, text, &list.tokens)?;
    Ok(Lexed {
        lexemes,
        stop: list.stop,
        stop_at: list.stop_at,
    })
}
