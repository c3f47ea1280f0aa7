//! A written specification: its parts in the order written.

use crate::expr::{Expr, Span, Word};
use crate::sections::Sections;
use letters_and_lassos::Kind;
use names_and_numbers::Name;

/// What a whole text says.
#[derive(Debug, Drop)]
pub struct SpecTree {
    pub info: Info,
    /// Parameters, functions and enumerations.
    pub definitions: Vec<Definition>,
    pub inputs: Vec<Declaration>,
    pub outputs: Vec<Declaration>,
    /// The formulas of each section.
    pub sections: Sections<Vec<Expr>>,
}

/// The part INFO. The title and the description stand without their quotes.
#[derive(Debug, Drop)]
pub struct Info {
    pub title: Name,
    pub description: Name,
    pub tags: Vec<Word>,
    pub semantics: Kind,
    pub strict: bool,
    pub target: Kind,
    /// The first byte of TARGET's value.
    pub target_at: u64,
}

#[derive(Debug, Drop)]
pub enum Definition {
    Parameter {
        word: Word,
        value: Expr,
    },
    Function {
        word: Word,
        arguments: Vec<Word>,
        body: Body,
    },
    Enumeration {
        word: Word,
        members: Vec<Member>,
    },
}

/// A member of an enumeration, with its values.
#[derive(Debug, Drop)]
pub struct Member {
    pub word: Word,
    pub values: Vec<Pattern>,
}

/// A value of a member, its leftmost character first. `None` is `*`, which stands for either.
#[derive(Debug, Drop)]
pub struct Pattern {
    pub bits: Vec<Option<bool>>,
    pub span: Span,
}

#[derive(Debug, Drop)]
pub enum Body {
    Plain(Expr),
    Guarded(Vec<Alternative>),
}

/// A guard with its value. `None` is `otherwise`.
#[derive(Debug, Drop)]
pub struct Alternative {
    pub guard: Option<Expr>,
    pub value: Expr,
}

#[derive(Debug, Drop)]
pub struct Declaration {
    pub word: Word,
    pub shape: Shape,
}

#[derive(Debug, Drop)]
pub enum Shape {
    Single,
    /// A bus, by its width.
    Bus(Expr),
    /// A bus of an enumeration's width.
    Typed(Word),
}
