//! Written nesting: how deep a symbol stands, whatever tree it may belong to.

ghost use Rattle.std.specs.Prelude.{◌≡◌, ◌+◌, ◌<◌, ◌≤◌, ◌↔◌, [], ◌∷◌, reverse, IfOk, IsTrue};
ghost use Rattle.tlsf_syntax.specs.Nesting.{first_of, first_deep, role_of};
ghost use Rattle.tlsf_syntax.specs.Frames.{frame_number, frames_after};

use std::alloc::{AllocError, Global};
use tlsf_tokens::Symbol;

/// The largest written nesting that is read.
pub const LIMIT: u64 = 128;

/// What a symbol is to written nesting.
#[derive(Clone, Copy, PartialEq, Eq)]
pub enum Role {
    Open,
    Close,
    /// It ends what stood directly in its bracket: `,`, `;` or `:`.
    Separator,
    /// An operator that binds to the right: `->`, `<->`, `W` or `U`.
    Right,
    /// A sign before its operand, also that of a big operator.
    Prefix,
    /// Any other operator.
    Operator,
    /// A name, a number, a keyword, `=` or `..`.
    Other,
}

/// The role of a symbol before another one: `&&` and `||` before `[` are signs of big operators.
fn role_of(symbol: Symbol, next: Option<Symbol>) -> Role
    ensures { result ≡ role_of symbol next }
{
    match symbol {
        Symbol::OpenBrace | Symbol::OpenParen | Symbol::OpenBracket => Role::Open,
        Symbol::CloseBrace | Symbol::CloseParen | Symbol::CloseBracket => Role::Close,
        Symbol::Comma | Symbol::Semicolon | Symbol::Colon => Role::Separator,
        Symbol::Implies | Symbol::Equiv | Symbol::WeakUntil | Symbol::Until => Role::Right,
        Symbol::Not | Symbol::Next | Symbol::Finally | Symbol::Globally | Symbol::SizeOf =>
            Role::Prefix,
        Symbol::And | Symbol::Or => match next {
            Some(Symbol::OpenBracket) => Role::Prefix,
            _ => Role::Operator,
        },
        Symbol::Release | Symbol::In | Symbol::Equal | Symbol::Unequal => Role::Operator,
        Symbol::Less | Symbol::LessEqual | Symbol::Greater | Symbol::GreaterEqual => Role::Operator,
        Symbol::Plus | Symbol::Minus | Symbol::Star | Symbol::Slash | Symbol::Percent =>
            Role::Operator,
        Symbol::Meet | Symbol::Join | Symbol::Difference => Role::Operator,
        _ => Role::Other,
    }
}

/// What was counted directly in one bracket, and the number of its opener.
#[derive(Clone, Copy, PartialEq, Eq)]
struct Frame {
    /// Operators that bind to the right, since the bracket opened or the last separator in it.
    right: u64,
    /// Signs before an operand, since then and since the last other operator.
    prefix: u64,
    /// The bracket itself, and all outside it.
    outside: u64,
}

/// Outside all brackets, before the first symbol.
const OUTERMOST: Frame = Frame {
    right: 0,
    prefix: 0,
    outside: 0,
};

fn is_too_deep(frame: Frame) -> bool
    ensures { IsTrue result ↔ (LIMIT < frame_number frame) }
{
    frame.right > LIMIT
        || frame.prefix > LIMIT - frame.right
        || frame.outside > LIMIT - frame.right - frame.prefix
}

/// Takes a symbol of this role: `outer` holds the frames round the innermost one, which is passed and answered.
fn step(outer: &mut Vec<Frame>, here: Frame, role: Role) -> Result<Frame, AllocError>
    requires { frame_number here ≤ LIMIT }
    ensures { IfOk result (λ next. next ∷ reverse outer.new.items ≡ frames_after role (here ∷ reverse outer.old.items)) }
{
    match role {
        Role::Open => {
            outer.push(here)?;
            Ok(Frame {
                outside: here.right + here.prefix + here.outside + 1,
                ..OUTERMOST
            })
        }
        Role::Close => Ok(outer.pop().unwrap_or(OUTERMOST)),
        Role::Separator => Ok(Frame {
            outside: here.outside,
            ..OUTERMOST
        }),
        Role::Right => Ok(Frame {
            right: here.right + 1,
            prefix: 0,
            ..here
        }),
        Role::Prefix => Ok(Frame {
            prefix: here.prefix + 1,
            ..here
        }),
        Role::Operator => Ok(Frame { prefix: 0, ..here }),
        Role::Other => Ok(here),
    }
}

fn first(symbols: &[Symbol]) -> Option<Symbol>
    ensures { result ≡ first_of symbols.now }
{
    match symbols {
        [] => None,
        [symbol, ..] => Some(*symbol),
    }
}

/// The first symbol whose written nesting passes the limit. It takes time in proportion to the number of symbols.
pub fn first_too_deep(alloc: Global, symbols: &[Symbol]) -> Result<Option<usize>, AllocError>
    ensures { IfOk result (λ found. found ≡ first_deep LIMIT [] symbols.now) }
{
    let mut outer = Vec::new(alloc);
    let mut here = OUTERMOST;
    for (i, symbol) in symbols.iter().enumerate() {
        let role = role_of(*symbol, first(&symbols[i + 1..]));
        here = step(&mut outer, here, role)?;
        if is_too_deep(here) {
            return Ok(Some(i));
        }
    }
    Ok(None)
}
