//! Looking at the front of the lexemes that are left.

ghost use Rattle.std.specs.Prelude.{◌≡◌, map};
ghost use Rattle.tlsf_syntax.specs.Reading.{begins, begins_big, at_level, operator_here};
ghost use Rattle.tlsf_reader.specs.Seen.{seen};

use crate::lexeme::Lexeme;
use crate::signs::{big, operator};
use std::alloc::{AllocError, AllocFailed};
use tlsf_syntax::{Level, Op};
use tlsf_tokens::Symbol;

/// Whether the next lexeme has this symbol.
pub(crate) fn begins(symbol: Symbol, ls: &[Lexeme<'_>]) -> bool
    ensures { result ≡ begins symbol (map seen ls.now) }
{
    match ls {
        [] => false,
        [first, ..] => first.symbol == symbol,
    }
}

/// Whether the sign of a big operator stands at the front.
fn begins_big(ls: &[Lexeme<'_>]) -> bool
    ensures { result ≡ begins_big (map seen ls.now) }
{
    match ls {
        [first, second, ..] => big(first.symbol).is_some() && second.symbol == Symbol::OpenBracket,
        _ => false,
    }
}

/// The operator, where it is of this level.
fn at_level(level: Level, found: Option<(Level, Op)>) -> Option<Op>
    ensures { result ≡ at_level level found }
{
    match found {
        Some((of, op)) => {
            if of.rank() == level.rank() {
                Some(op)
            } else {
                None
            }
        }
        None => None,
    }
}

/// The operator of this level at the front. Where another expression may follow, the sign of a big operator is none.
pub(crate) fn operator_here(ends: bool, level: Level, ls: &[Lexeme<'_>]) -> Option<Op>
    ensures { result ≡ operator_here ends level (map seen ls.now) }
{
    if ends && begins_big(ls) {
        return None;
    }
    match ls {
        [] => None,
        [first, ..] => at_level(level, operator(first.symbol)),
    }
}

/// Why a form isn't read.
#[derive(Clone, Copy)]
pub(crate) enum Refusal {
    NoMemory,
    /// So many lexemes were left, of which the first is refused; where none was left, the end is.
    At { left: usize },
}

impl From<AllocError> for Refusal {
    ghost use Rattle.std.specs.Prelude.{◌≡◌};
    ghost use Rattle.tlsf_reader.specs.declared.rest.Refusal.TheVariants.{NoMemory};

    ghost from_gives = { λ _ refusal. refusal ≡ NoMemory };

    fn from(_: AllocError) -> Refusal {
        Refusal::NoMemory
    }
}

impl<T: Drop> From<AllocFailed<T>> for Refusal {
    ghost use Rattle.std.specs.Prelude.{◌≡◌};
    ghost use Rattle.tlsf_reader.specs.declared.rest.Refusal.TheVariants.{NoMemory};

    ghost from_gives = { λ _ refusal. refusal ≡ NoMemory };

    fn from(_: AllocFailed<T>) -> Refusal {
        Refusal::NoMemory
    }
}
