//! Nodes of the written tree, made of their parts.

ghost use Rattle.std.specs.Prelude.{◌≡◌, ◌∷◌, [], ◌++◌, map, IfOk};
ghost use Rattle.tlsf_syntax.specs.Tree.{tree_span, truth as truth_tree, named as named_tree, number as number_tree, call as call_tree, index as index_tree, size_of as size_tree, paren as paren_tree, set as set_tree, steps as steps_tree, pair as pair_tree, prefix as prefix_tree, count as count_tree, window as window_tree, big as big_tree, members as members_range, between as between_range};
ghost use Rattle.tlsf_syntax.specs.Lexemes.{word_of, lexeme_span, literal_of};
ghost use Rattle.tlsf_syntax.specs.Reading.{chain_of, links_end, from_to};
ghost use Rattle.tlsf_reader.specs.Seen.{seen};
ghost use Rattle.tlsf_syntax.specs.Seen.{expr_seen, word_seen, trees_seen, link_list_seen, range_list_seen, range_seen};
ghost use Rattle.tlsf_reader.specs.Descent.{IsBuilt};

use crate::lexeme::Lexeme;
use crate::rest::Refusal;
use names_and_numbers::Name;
use std::alloc::Global;
use tlsf_syntax::{Expr, Form, Link, Op, Range, Span, Word};

/// Where an expression is written.
pub(crate) fn span(tree: &Expr) -> Span
    ensures { result ≡ tree_span (expr_seen tree.now) }
{
    tree.span
}

/// A name with its place.
pub(crate) fn word(alloc: Global, lexeme: Lexeme<'_>) -> Result<Word, Refusal>
    ensures { IsBuilt word_seen (word_of (seen lexeme.entry)) result }
{
    Ok(Word {
        name: Name::new(alloc, lexeme.text)?,
        span: Span {
            start: lexeme.start,
            end: lexeme.end,
        },
    })
}

fn boxed(alloc: Global, tree: Expr) -> Result<Box<Expr>, Refusal>
    ensures { IsBuilt (λ b. b.value) tree result }
{
    Ok(Box::new(alloc, tree)?)
}

/// From the first byte of one lexeme to the byte after the last one of another.
fn from_to(first: Lexeme<'_>, last: Lexeme<'_>) -> Span
    ensures { result ≡ from_to (seen first.entry).start (seen last.entry).end }
{
    Span {
        start: first.start,
        end: last.end,
    }
}

pub(crate) fn paren(
    alloc: Global,
    first: Lexeme<'_>,
    last: Lexeme<'_>,
    inner: Expr,
) -> Result<Expr, Refusal>
    ensures { IsBuilt expr_seen (paren_tree (from_to (seen first.entry).start (seen last.entry).end) (expr_seen inner)) result }
{
    let inner = boxed(alloc, inner)?;
    Ok(Expr {
        span: from_to(first, last),
        form: Form::Paren(inner),
    })
}

pub(crate) fn call(
    alloc: Global,
    first: Lexeme<'_>,
    last: Lexeme<'_>,
    arguments: Vec<Expr>,
) -> Result<Expr, Refusal>
    ensures { IsBuilt expr_seen (call_tree (from_to (seen first.entry).start (seen last.entry).end) (word_of (seen first.entry)) (trees_seen arguments.items)) result }
{
    let word = word(alloc, first)?;
    Ok(Expr {
        span: from_to(first, last),
        form: Form::Call { word, arguments },
    })
}

pub(crate) fn index(
    alloc: Global,
    first: Lexeme<'_>,
    last: Lexeme<'_>,
    index: Expr,
) -> Result<Expr, Refusal>
    ensures { IsBuilt expr_seen (index_tree (from_to (seen first.entry).start (seen last.entry).end) (word_of (seen first.entry)) (expr_seen index)) result }
{
    let word = word(alloc, first)?;
    let index = boxed(alloc, index)?;
    Ok(Expr {
        span: from_to(first, last),
        form: Form::Index { word, index },
    })
}

pub(crate) fn size_of(alloc: Global, start: u64, part: Expr) -> Result<Expr, Refusal>
    ensures { IsBuilt expr_seen (size_tree (from_to start (tree_span (expr_seen part)).end) (expr_seen part)) result }
{
    let end = span(&part).end;
    let part = boxed(alloc, part)?;
    Ok(Expr {
        span: Span { start, end },
        form: Form::SizeOf(part),
    })
}

pub(crate) fn set(first: Lexeme<'_>, last: Lexeme<'_>, members: Vec<Expr>) -> Expr
    ensures { expr_seen result ≡ set_tree (from_to (seen first.entry).start (seen last.entry).end) (trees_seen members.items) }
{
    Expr {
        span: from_to(first, last),
        form: Form::Set(members),
    }
}

/// Members in steps from the first one to the last, by the second one.
pub(crate) fn steps(
    alloc: Global,
    first: Lexeme<'_>,
    last: Lexeme<'_>,
    members: (Expr, Expr, Expr),
) -> Result<Expr, Refusal>
    ensures { IsBuilt expr_seen (steps_tree (from_to (seen first.entry).start (seen last.entry).end) (expr_seen members.0) (expr_seen members.1) (expr_seen members.2)) result }
{
    let span = from_to(first, last);
    let (first, second, last) = members;
    let first = boxed(alloc, first)?;
    let second = boxed(alloc, second)?;
    let last = boxed(alloc, last)?;
    Ok(Expr {
        span,
        form: Form::Steps {
            first,
            second,
            last,
        },
    })
}

pub(crate) fn pair(alloc: Global, op: Op, left: Expr, right: Expr) -> Result<Expr, Refusal>
    ensures { IsBuilt expr_seen (pair_tree (from_to (tree_span (expr_seen left)).start (tree_span (expr_seen right)).end) op (expr_seen left) (expr_seen right)) result }
{
    let span = Span {
        start: span(&left).start,
        end: span(&right).end,
    };
    let left = boxed(alloc, left)?;
    let right = boxed(alloc, right)?;
    Ok(Expr {
        span,
        form: Form::Pair { op, left, right },
    })
}

pub(crate) fn prefix(alloc: Global, start: u64, op: Op, part: Expr) -> Result<Expr, Refusal>
    ensures { IsBuilt expr_seen (prefix_tree (from_to start (tree_span (expr_seen part)).end) op (expr_seen part)) result }
{
    let end = span(&part).end;
    let part = boxed(alloc, part)?;
    Ok(Expr {
        span: Span { start, end },
        form: Form::Prefix { op, part },
    })
}

pub(crate) fn count(alloc: Global, start: u64, count: Expr, part: Expr) -> Result<Expr, Refusal>
    ensures { IsBuilt expr_seen (count_tree (from_to start (tree_span (expr_seen part)).end) (expr_seen count) (expr_seen part)) result }
{
    let end = span(&part).end;
    let count = boxed(alloc, count)?;
    let part = boxed(alloc, part)?;
    Ok(Expr {
        span: Span { start, end },
        form: Form::Count { count, part },
    })
}

pub(crate) fn window(
    alloc: Global,
    start: u64,
    op: Op,
    bounds: (Expr, Expr),
    part: Expr,
) -> Result<Expr, Refusal>
    ensures { IsBuilt expr_seen (window_tree (from_to start (tree_span (expr_seen part)).end) op (expr_seen bounds.0) (expr_seen bounds.1) (expr_seen part)) result }
{
    let (from, to) = bounds;
    let end = span(&part).end;
    let from = boxed(alloc, from)?;
    let to = boxed(alloc, to)?;
    let part = boxed(alloc, part)?;
    Ok(Expr {
        span: Span { start, end },
        form: Form::Window { op, from, to, part },
    })
}

pub(crate) fn big(
    alloc: Global,
    start: u64,
    op: Op,
    ranges: Vec<Range>,
    part: Expr,
) -> Result<Expr, Refusal>
    ensures { IsBuilt expr_seen (big_tree (from_to start (tree_span (expr_seen part)).end) op (range_list_seen ranges.items) (expr_seen part)) result }
{
    let end = span(&part).end;
    let part = boxed(alloc, part)?;
    Ok(Expr {
        span: Span { start, end },
        form: Form::Big { op, ranges, part },
    })
}

/// An operand with the operators after it, which is a node of its own only where there are some. `end` is where the
/// last operand ends.
pub(crate) fn chain(alloc: Global, first: Expr, rest: Vec<Link>, end: u64) -> Result<Expr, Refusal>
    requires { end ≡ links_end (tree_span (expr_seen first)).end (link_list_seen rest.items) }
    ensures { IsBuilt expr_seen (chain_of (expr_seen first) (link_list_seen rest.items)) result }
{
    if rest.is_empty() {
        return Ok(first);
    }
    let span = Span {
        start: span(&first).start,
        end,
    };
    let first = boxed(alloc, first)?;
    Ok(Expr {
        span,
        form: Form::Chain { first, rest },
    })
}

/// The number of a literal, where it fits 64 bits signed. It takes time in proportion to the literal's length.
fn literal(text: &[u8]) -> Option<i64>
    ensures { result ≡ literal_of text.now }
{
    let mut value: u128 = 0;
    for digit in text {
        value = value * 10 + u128::from(digit.saturating_sub(b'0'));
        if value >= LITERALS {
            return None;
        }
    }
    Some(value as i64)
}

/// A literal from here on doesn't fit 64 bits signed.
const LITERALS: u128 = 1 << 63;

pub(crate) fn number(lexeme: Lexeme<'_>) -> Expr
    ensures { expr_seen result ≡ number_tree (lexeme_span (seen lexeme.entry)) (literal_of lexeme.entry.text.now) }
{
    Expr {
        span: Span {
            start: lexeme.start,
            end: lexeme.end,
        },
        form: Form::Number(literal(lexeme.text)),
    }
}

pub(crate) fn truth(lexeme: Lexeme<'_>, value: bool) -> Expr
    ensures { expr_seen result ≡ truth_tree (lexeme_span (seen lexeme.entry)) value }
{
    Expr {
        span: Span {
            start: lexeme.start,
            end: lexeme.end,
        },
        form: Form::Truth(value),
    }
}

pub(crate) fn named(alloc: Global, lexeme: Lexeme<'_>) -> Result<Expr, Refusal>
    ensures { IsBuilt expr_seen (named_tree (lexeme_span (seen lexeme.entry)) lexeme.entry.text.now) result }
{
    let word = word(alloc, lexeme)?;
    Ok(Expr {
        span: word.span,
        form: Form::Named(word.name),
    })
}

/// The range over the members of a set.
pub(crate) fn members(alloc: Global, name: Lexeme<'_>, set: Expr) -> Result<Range, Refusal>
    ensures { IsBuilt range_seen (members_range (word_of (seen name.entry)) (expr_seen set)) result }
{
    let word = word(alloc, name)?;
    Ok(Range::Members { word, set })
}

/// The range between two bounds, each with whether it is strict.
pub(crate) fn between(
    alloc: Global,
    low: (Expr, bool),
    name: Lexeme<'_>,
    high: (bool, Expr),
) -> Result<Range, Refusal>
    ensures { IsBuilt range_seen (between_range (expr_seen low.0) low.1 (word_of (seen name.entry)) high.0 (expr_seen high.1)) result }
{
    let word = word(alloc, name)?;
    let (low, low_strict) = low;
    let (high_strict, high) = high;
    Ok(Range::Between {
        low,
        low_strict,
        word,
        high_strict,
        high,
    })
}

/// A list of one expression.
pub(crate) fn single(alloc: Global, one: Expr) -> Result<Vec<Expr>, Refusal>
    ensures { IsBuilt (λ v. v.items) (one ∷ []) result }
{
    let mut list = Vec::new(alloc);
    list.push(one)?;
    Ok(list)
}

/// A list of two expressions.
pub(crate) fn both(alloc: Global, one: Expr, two: Expr) -> Result<Vec<Expr>, Refusal>
    ensures { IsBuilt (λ v. v.items) (one ∷ two ∷ []) result }
{
    let mut list = single(alloc, one)?;
    list.push(two)?;
    Ok(list)
}

/// One list after another.
pub(crate) fn appended(list: Vec<Expr>, more: Vec<Expr>) -> Result<Vec<Expr>, Refusal>
    ensures { IsBuilt (λ v. v.items) (list.items ++ more.items) result }
{
    let mut all = list;
    let mut rest = more;
    all.append(&mut rest)?;
    Ok(all)
}
