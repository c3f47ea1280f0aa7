//! Written expressions.

use names_and_numbers::Name;

/// Where something is written: its first byte, and the byte after its last.
#[derive(Clone, Copy, Debug, PartialEq, Eq)]
pub struct Span {
    pub start: u64,
    pub end: u64,
}

/// A name with its place.
#[derive(Debug, Drop)]
pub struct Word {
    pub name: Name,
    pub span: Span,
}

/// An operator, whatever its spelling.
#[derive(Clone, Copy, Debug, PartialEq, Eq)]
pub enum Op {
    Mul,
    Div,
    Rem,
    Plus,
    Minus,
    Difference,
    Meet,
    Join,
    Equal,
    Unequal,
    Less,
    LessEqual,
    Greater,
    GreaterEqual,
    Element,
    Not,
    Next,
    Finally,
    Globally,
    And,
    Or,
    Implies,
    Equiv,
    WeakUntil,
    Until,
    Release,
}

/// One node of the written tree.
#[derive(Debug, Drop)]
#[cycle(expr)]
pub struct Expr {
    pub span: Span,
    pub form: Form,
}

#[derive(Debug, Drop)]
#[cycle(expr)]
pub enum Form {
    /// `None` where the literal passes 64 bits signed.
    Number(Option<i64>),
    Truth(bool),
    Named(Name),
    Call {
        word: Word,
        arguments: Vec<Expr>,
    },
    Index {
        word: Word,
        index: Box<Expr>,
    },
    SizeOf(Box<Expr>),
    Paren(Box<Expr>),
    Set(Vec<Expr>),
    Steps {
        first: Box<Expr>,
        second: Box<Expr>,
        last: Box<Expr>,
    },
    Chain {
        first: Box<Expr>,
        rest: Vec<Link>,
    },
    Pair {
        op: Op,
        left: Box<Expr>,
        right: Box<Expr>,
    },
    Prefix {
        op: Op,
        part: Box<Expr>,
    },
    Count {
        count: Box<Expr>,
        part: Box<Expr>,
    },
    Window {
        op: Op,
        from: Box<Expr>,
        to: Box<Expr>,
        part: Box<Expr>,
    },
    Big {
        op: Op,
        ranges: Vec<Range>,
        part: Box<Expr>,
    },
}

/// An operator of a chain with its right operand.
#[derive(Debug, Drop)]
#[cycle(expr)]
pub struct Link {
    pub op: Op,
    pub right: Expr,
}

/// What a big operator goes over.
#[derive(Debug, Drop)]
#[cycle(expr)]
pub enum Range {
    Members {
        word: Word,
        set: Expr,
    },
    Between {
        low: Expr,
        low_strict: bool,
        word: Word,
        high_strict: bool,
        high: Expr,
    },
}
