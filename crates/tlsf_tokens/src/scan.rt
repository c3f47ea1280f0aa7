//! Cutting a text: one pass, in which the longest piece at each place is taken.

ghost use Rattle.std.specs.Prelude.{◌≡◌, ◌<◌, ◌+◌, ◌==◌, ◌&&◌, true, not, length, slice_index, codes, IfOk, IsNone, ◌↔◌, nat_eq, Some};
ghost use Rattle.std.specs.Char.{is_ascii_digit};
ghost use Rattle.std.specs.List.{prefix_len, starts_with};
ghost use Rattle.tlsf_tokens.specs.Words.{is_name_part};
ghost use Rattle.tlsf_tokens.specs.Pieces.{BeginsSign};
ghost use Rattle.tlsf_tokens.specs.Cuts.{longest, sign_front, Stops, CutsText, IsInOrder, AreFormed, HasGapsAround};

use crate::symbol::Symbol;
use crate::token::{Front, Piece, Token, TokenList};
use crate::words;
use spec_faults::SpecCode;
use std::alloc::{AllocError, Global};

/// How many bytes at the front go on with a name.
fn name_len(rest: &[u8]) -> usize
    ensures { result ≡ prefix_len is_name_part rest.now }
{
    rest.iter().take_while(|b| words::is_name_part(**b)).count()
}

fn digits_len(rest: &[u8]) -> usize
    ensures { result ≡ prefix_len is_ascii_digit rest.now }
{
    rest.iter().take_while(|b| b.is_ascii_digit()).count()
}

/// How many bytes stand before the first that is this one.
fn len_before(byte: u8, rest: &[u8]) -> usize
    ensures { result ≡ prefix_len (λ b. not (b == byte)) rest.now }
{
    rest.iter().take_while(|b| **b != byte).count()
}

/// A text that begins with a quote.
fn quoted(rest: &[u8]) -> Front
    requires some { 0 < length rest.now }
    requires quote { slice_index rest.now 0 ≡ 34 }
    ensures { longest rest.now ≡ Some result }
{
    let inner = len_before(b'"', &rest[1..]);
    if inner + 1 < rest.len() {
        Front {
            piece: Piece::Token(Symbol::Text),
            len: inner + 2,
        }
    } else {
        Front {
            piece: Piece::Fault(SpecCode::Unclosed),
            len: rest.len(),
        }
    }
}

/// Whether these two bytes stand at the place.
fn is_pair(rest: &[u8], at: usize, first: u8, second: u8) -> bool
    requires { at + 1 < length rest.now }
    ensures { result ≡ (slice_index rest.now at == first && slice_index rest.now (at + 1) == second) }
{
    rest[at] == first && rest[at + 1] == second
}

/// A text that begins with the opener of a comment that nests.
fn comment(rest: &[u8]) -> Front
    requires { starts_with nat_eq rest.now (codes "/*") ≡ true }
    ensures { longest rest.now ≡ Some result }
{
    let mut level: usize = 1;
    let mut at = 2;
    while level != 0 && at + 1 < rest.len() {
        if is_pair(rest, at, b'/', b'*') {
            level += 1;
            at += 2;
        } else if is_pair(rest, at, b'*', b'/') {
            level -= 1;
            at += 2;
        } else {
            at += 1;
        }
    }
    if level == 0 {
        Front {
            piece: Piece::Gap,
            len: at,
        }
    } else {
        Front {
            piece: Piece::Fault(SpecCode::Unclosed),
            len: rest.len(),
        }
    }
}

/// The sign of so many bytes at the front.
fn sign_front(rest: &[u8], len: usize) -> Option<Front>
    ensures { result ≡ sign_front len rest.now }
{
    if len > rest.len() {
        return None;
    }
    let symbol = words::sign(&rest[..len])?;
    Some(Front {
        piece: Piece::Token(symbol),
        len,
    })
}

/// A text that begins with none of a name, a number, a quote, a blank and a comment.
#[tactic(auto, using(crate::proofs::Signs::longest_sign, crate::proofs::Signs::longest_tilde))]
fn sign(rest: &[u8]) -> Option<Front>
    requires { BeginsSign rest.now }
    ensures { longest rest.now ≡ result }
{
    if rest[0] == b'~' {
        return Some(Front {
            piece: Piece::Fault(SpecCode::Unsupported),
            len: 1,
        });
    }
    sign_front(rest, 3)
        .or(sign_front(rest, 2))
        .or(sign_front(rest, 1))
}

/// What stands at the front of a text that isn't empty, if anything of TLSF does.
fn front(rest: &[u8]) -> Option<Front>
    requires { 0 < length rest.now }
    ensures { longest rest.now ≡ result }
{
    let first = rest[0];
    if words::is_name_start(first) {
        let len = name_len(rest);
        Some(Front {
            piece: words::word_piece(&rest[..len]),
            len,
        })
    } else if first.is_ascii_digit() {
        Some(Front {
            piece: Piece::Token(Symbol::Number),
            len: digits_len(rest),
        })
    } else if first == b'"' {
        Some(quoted(rest))
    } else if words::is_blank(first) {
        Some(Front {
            piece: Piece::Gap,
            len: 1,
        })
    } else if rest.starts_with(b"//") {
        Some(Front {
            piece: Piece::Gap,
            len: len_before(b'\n', rest),
        })
    } else if rest.starts_with(b"/*") {
        Some(comment(rest))
    } else {
        sign(rest)
    }
}

fn cut(alloc: Global, text: &[u8]) -> Result<TokenList, AllocError>
    ensures cut { IfOk result (λ list. CutsText text.now list.stop list.stop_at 0 list.tokens.items) }
    ensures stop { IfOk result (λ list. Stops text.now list.stop_at list.stop) }
{
    let mut tokens = Vec::new(alloc);
    let mut at = 0;
    while at < text.len() {
        let stop_at = at as u64;
        let Some(found) = front(&text[at..]) else {
            let stop = Some(SpecCode::BadByte);
            return Ok(TokenList {
                tokens,
                stop,
                stop_at,
            });
        };
        match found.piece {
            Piece::Fault(code) => {
                let stop = Some(code);
                return Ok(TokenList {
                    tokens,
                    stop,
                    stop_at,
                });
            }
            Piece::Gap => {}
            Piece::Token(symbol) => {
                let end = (at + found.len) as u64;
                tokens.push(Token {
                    symbol,
                    start: stop_at,
                    end,
                })?;
            }
        }
        at += found.len;
    }
    Ok(TokenList {
        tokens,
        stop: None,
        stop_at: at as u64,
    })
}

/// Cuts a text into its tokens, up to the first place where none begins. It takes time in proportion to the text's
/// length, and memory in proportion to the number of tokens.
pub fn tokens(alloc: Global, text: &[u8]) -> Result<TokenList, AllocError>
    // The tokens are those of the text, each the longest at its place, and the list ends where it has to.
    ensures cut { IfOk result (λ list. CutsText text.now list.stop list.stop_at 0 list.tokens.items) }
    ensures stop { IfOk result (λ list. Stops text.now list.stop_at list.stop) }
    ensures whole { IfOk result (λ list. IsNone list.stop ↔ (list.stop_at ≡ length text.now)) }

    // What follows from it.
    ensures in_order { IfOk result (λ list. IsInOrder 0 list.tokens.items list.stop_at) }
    ensures formed { IfOk result (λ list. AreFormed text.now list.tokens.items) }
    ensures gaps { IfOk result (λ list. HasGapsAround text.now 0 list.tokens.items list.stop_at) }
{
    let list = cut(alloc, text)?;
    Ok(list)
}
