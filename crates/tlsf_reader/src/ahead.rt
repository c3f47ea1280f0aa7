//! The lexemes that are left to read.

ghost use Rattle.std.specs.Prelude.{◌≡◌, ◌<◌, if◌then◌else◌, length, map, drop, IfSome, IfNone, OnOk};
ghost use Rattle.tlsf_syntax.specs.Reading.{begins, operator_here};
ghost use Rattle.tlsf_reader.specs.declared.rest.Refusal.TheVariants.{At};
ghost use Rattle.tlsf_reader.specs.Seen.{seen};
ghost use Rattle.tlsf_reader.specs.Descent.{IsNextIf, IsExpected, IsLexemeTaken, IsSign, IsSignKind, IsBound, IsNameIn, after_sign};

use crate::lexeme::Lexeme;
use crate::rest::{Refusal, begins, operator_here};
use crate::signs::bound;
use std::marker::Model;
use tlsf_syntax::{Level, Op};
use tlsf_tokens::Symbol;

/// The lexemes that are left. A contract sees their list.
#[derive(Drop)]
pub(crate) struct Ahead<'a> {
    left: &'a [Lexeme<'a>],
}

impl<'a> Model for Ahead<'a> {
    ghost use Rattle.std.specs.Prelude.{List, map};
    ghost use Rattle.tlsf_syntax.specs.Lexemes.{Lexeme as GrammarLexeme};

    ghost Value = { List GrammarLexeme };

    ghost use Rattle.tlsf_reader.specs.Seen.{seen};

    ghost view = { λ a. map seen a.left.now };
}

/// What a sign before an operand begins.
#[derive(Clone, Copy)]
pub(crate) enum SignKind {
    /// One operand.
    Plain(Op),
    /// `X[`: a number of steps stands before the operand.
    Counted,
    /// `F[` or `G[`: a window of steps stands before the operand.
    Windowed(Op),
    /// The sign of a big operator.
    Big(Op),
}

impl<'a> Ahead<'a> {
    pub(crate) fn new(left: &'a [Lexeme<'a>]) -> Ahead<'a>
        ensures { result ≡ map seen left.now }
    {
        Ahead { left }
    }

    /// How many lexemes are left.
    pub(crate) fn left(&self) -> usize
        ensures { result ≡ length self.now }
    {
        self.left.len()
    }

    /// The lexemes that are left, for a look at what stands in front.
    pub(crate) fn front(&self) -> &'a [Lexeme<'a>]
        ensures { map seen result.now ≡ self.now }
    {
        self.left
    }

    /// The refusal of the next lexeme, or of the end.
    pub(crate) fn refusal(&self) -> Refusal
        ensures { result ≡ At (length self.now) }
    {
        Refusal::At { left: self.left() }
    }

    pub(crate) fn begins(&self, symbol: Symbol) -> bool
        ensures { result ≡ begins symbol self.now }
    {
        begins(symbol, self.left)
    }

    /// Passes the next lexeme.
    pub(crate) fn take(&mut self) -> Option<Lexeme<'a>>
        ensures taken { IsLexemeTaken self.old self.new result }
        ensures shorter { IfSome result (λ _. length self.new < length self.old) }
    {
        match self.left {
            [first, rest @ ..] => {
                self.left = rest;
                Some(*first)
            }
            [] => None,
        }
    }

    /// The next lexeme, where it has this symbol. It is passed.
    pub(crate) fn next_if(&mut self, symbol: Symbol) -> Option<Lexeme<'a>>
        ensures next { IsNextIf symbol self.old self.new result }
        ensures shorter { IfSome result (λ _. length self.new < length self.old) }
        ensures same { IfNone result (self.new ≡ self.old) }
    {
        match self.left {
            [first, rest @ ..] => {
                if first.symbol == symbol {
                    self.left = rest;
                    Some(*first)
                } else {
                    None
                }
            }
            [] => None,
        }
    }

    /// The next lexeme, which has to have this symbol. It is passed.
    pub(crate) fn expect(&mut self, symbol: Symbol) -> Result<Lexeme<'a>, Refusal>
        ensures next { IsExpected symbol self.old self.new result }
        ensures shorter { OnOk result (length self.new < length self.old) }
    {
        match self.next_if(symbol) {
            Some(lexeme) => Ok(lexeme),
            None => Err(self.refusal()),
        }
    }

    /// The operator of this level in front, where one stands there. It is passed.
    pub(crate) fn operator(&mut self, ends: bool, level: Level) -> Option<Op>
        ensures value { result ≡ operator_here ends level self.old }
        ensures some { IfSome result (λ _. self.new ≡ drop 1 self.old) }
        ensures shorter { IfSome result (λ _. length self.new < length self.old) }
        ensures none { IfNone result (self.new ≡ self.old) }
    {
        match self.left {
            [_, rest @ ..] => {
                let op = operator_here(ends, level, self.left)?;
                self.left = rest;
                Some(op)
            }
            [] => None,
        }
    }

    /// The sign before an operand, where one stands in front. It is passed, with the bracket that belongs to it.
    pub(crate) fn sign(&mut self) -> Option<Sign<'a>>
        ensures sign { IsSign self.old self.new result }
        ensures shorter { IfSome result (λ _. length self.new < length self.old) }
        ensures same { IfNone result (self.new ≡ self.old) }
    {
        match self.left {
            [first, rest @ ..] => {
                let kind = sign_kind(*first, rest)?;
                self.left = after_sign(kind, rest);
                Some(Sign {
                    first: *first,
                    kind,
                })
            }
            [] => None,
        }
    }

    /// Whether the sign in front is strict, which has to be that of a bound. It is passed.
    pub(crate) fn bound(&mut self) -> Result<bool, Refusal>
        ensures bound { IsBound self.old self.new result }
        ensures shorter { OnOk result (length self.new < length self.old) }
    {
        match self.left {
            [first, rest @ ..] => match bound(first.symbol) {
                Some(strict) => {
                    self.left = rest;
                    Ok(strict)
                }
                None => Err(self.refusal()),
            },
            [] => Err(self.refusal()),
        }
    }

    /// The name in front, where `IN` follows it. Both are passed.
    pub(crate) fn name_in(&mut self) -> Option<Lexeme<'a>>
        ensures name { IsNameIn self.old self.new result }
        ensures shorter { IfSome result (λ _. length self.new < length self.old) }
        ensures same { IfNone result (self.new ≡ self.old) }
    {
        match self.left {
            [first, second, rest @ ..] => {
                if first.symbol == Symbol::Ident && second.symbol == Symbol::In {
                    self.left = rest;
                    Some(*first)
                } else {
                    None
                }
            }
            _ => None,
        }
    }
}

/// A sign before an operand, with what it begins.
#[derive(Clone, Copy)]
pub(crate) struct Sign<'a> {
    pub first: Lexeme<'a>,
    pub kind: SignKind,
}

/// What the first lexeme begins, where it is a sign before an operand.
fn sign_kind(first: Lexeme<'_>, rest: &[Lexeme<'_>]) -> Option<SignKind>
    ensures { IsSignKind (seen first.entry) (map seen rest.now) result }
{
    let bracket = begins(Symbol::OpenBracket, rest);
    match first.symbol {
        Symbol::Not => Some(SignKind::Plain(Op::Not)),
        Symbol::Next => Some(if bracket {
            SignKind::Counted
        } else {
            SignKind::Plain(Op::Next)
        }),
        Symbol::Finally => Some(windowed_if(bracket, Op::Finally)),
        Symbol::Globally => Some(windowed_if(bracket, Op::Globally)),
        Symbol::And => Some(SignKind::Big(Op::And)),
        Symbol::Or => Some(SignKind::Big(Op::Or)),
        _ => None,
    }
}

fn windowed_if(bracket: bool, op: Op) -> SignKind
    ensures { result ≡ (if bracket then SignKind.Windowed op else SignKind.Plain op) }
{
    if bracket {
        SignKind::Windowed(op)
    } else {
        SignKind::Plain(op)
    }
}

/// What stands after a sign and the bracket that belongs to it.
fn after_sign<'a>(kind: SignKind, rest: &'a [Lexeme<'a>]) -> &'a [Lexeme<'a>]
    ensures { map seen result.now ≡ after_sign kind (map seen rest.now) }
{
    match (kind, rest) {
        (SignKind::Counted | SignKind::Windowed(_), [_, after @ ..]) => after,
        _ => rest,
    }
}
