//! The descent for expressions: one token of look-ahead, a call for each nested form, a loop over levels and chains.

ghost use Rattle.std.specs.Prelude.{◌≡◌, ◌<◌, ◌≤◌, ◌⊎◌, List, [], ◌∷◌, length, map, Some, OnOk};
ghost use Rattle.tlsf_syntax.specs.Lexemes.{Lexeme as GrammarLexeme};
ghost use Rattle.tlsf_syntax.specs.declared.level.Level.TheVariants.{Prefixes};
ghost use Rattle.tlsf_syntax.specs.Expressions.{tighter_of, joins_of};
ghost use Rattle.tlsf_syntax.specs.Reading.{taken, go_on, joined_by, level_number, operator_here, readers, chain_of, word_with, set_with, set_third, close_set, prefixed, primary_with, counted, windowed, big_with};
ghost use Rattle.tlsf_reader.specs.Seen.{seen};
ghost use Rattle.tlsf_syntax.specs.Seen.{expr_seen, trees_seen};
ghost use Rattle.tlsf_reader.specs.Descent.{Eventually, IsRead, IsRangeRead, extended_by, grouped_with, list_seen, ranges_seen};

use crate::ahead::{Ahead, SignKind};
use crate::lexeme::Lexeme;
use crate::node;
use crate::rest::Refusal;
use std::alloc::Global;
use tlsf_syntax::{Expr, Joins, Level, Link, Op, Range};
use tlsf_tokens::Symbol;

/// An expression of this level. Where `ends`, another expression may follow, which the sign of a big operator begins.
/// It takes time and memory in proportion to what it reads; it goes as deep as that is nested.
#[cycle(expression)]
pub(crate) fn expression(
    alloc: Global,
    ahead: &mut Ahead<'_>,
    ends: bool,
    level: Level,
) -> Result<Expr, Refusal>
    ensures read { IsRead expr_seen (λ d. (readers d).level ends level ahead.old) ahead.new result }
    ensures shorter { OnOk result (length ahead.new < length ahead.old) }
{
    if level.rank() < Level::Prefixes.rank() {
        let operand = primary(alloc, ahead)?;
        return climb(alloc, ahead, ends, Level::Primary, level, operand);
    }
    let tree = signed(alloc, ahead, ends)?;
    climb(alloc, ahead, ends, Level::Prefixes, level, tree)
}

/// Goes on from an operand of one level to an expression of another one, which is built of it.
#[cycle(expression)]
fn climb(
    alloc: Global,
    ahead: &mut Ahead<'_>,
    ends: bool,
    from: Level,
    to: Level,
    operand: Expr,
) -> Result<Expr, Refusal>
    requires up { level_number from ≤ level_number to }
    requires no_sign { (level_number to < 9) ⊎ (9 ≤ level_number from) }
    ensures read { (ls : List GrammarLexeme) → Eventually (λ d. (readers d).level ends from ls) (taken (expr_seen operand) ahead.old) → IsRead expr_seen (λ d. (readers d).level ends to ls) ahead.new result }
    ensures shorter { OnOk result (length ahead.new ≤ length ahead.old) }
{
    let mut tree = operand;
    let mut at = from;
    while let Some(next) = at.towards(to) {
        tree = extended(alloc, ahead, ends, next, at, tree)?;
        at = next;
    }
    Ok(tree)
}

/// Goes on from an operand to an expression of the level that is built of it.
#[cycle(expression)]
fn extended(
    alloc: Global,
    ahead: &mut Ahead<'_>,
    ends: bool,
    level: Level,
    tighter: Level,
    tree: Expr,
) -> Result<Expr, Refusal>
    requires { tighter_of level ≡ Some tighter }
    ensures read { IsRead expr_seen (λ d. extended_by (readers d) ends level tighter (joins_of level) (expr_seen tree) ahead.old) ahead.new result }
    ensures shorter { OnOk result (length ahead.new ≤ length ahead.old) }
{
    match level.joins() {
        Joins::Left => chain(alloc, ahead, ends, level, tighter, tree),
        Joins::Once => pair(alloc, ahead, ends, level, tighter, tree),
        Joins::Right => pair(alloc, ahead, ends, level, level, tree),
        Joins::None => Ok(tree),
    }
}

/// Goes on with any number of operators of the level, to the left.
#[cycle(expression)]
fn chain(
    alloc: Global,
    ahead: &mut Ahead<'_>,
    ends: bool,
    level: Level,
    tighter: Level,
    first: Expr,
) -> Result<Expr, Refusal>
    requires { tighter_of level ≡ Some tighter }
    ensures read { IsRead expr_seen (λ d. go_on ((readers d).links ends level ahead.old) (λ more after. taken (chain_of (expr_seen first) more) after)) ahead.new result }
    ensures shorter { OnOk result (length ahead.new ≤ length ahead.old) }
{
    let mut rest = Vec::new(alloc);
    let mut end = node::span(&first).end;
    while let Some(op) = ahead.operator(ends, level) {
        let right = expression(alloc, ahead, ends, tighter)?;
        end = node::span(&right).end;
        rest.push(Link { op, right })?;
    }
    node::chain(alloc, first, rest, end)
}

/// Goes on with at most one operator of the level, and an operand of another level.
#[cycle(expression)]
fn pair(
    alloc: Global,
    ahead: &mut Ahead<'_>,
    ends: bool,
    level: Level,
    operand: Level,
    left: Expr,
) -> Result<Expr, Refusal>
    ensures read { IsRead expr_seen (λ d. joined_by (operator_here ends level ahead.old) (expr_seen left) ahead.old ((readers d).level ends operand)) ahead.new result }
    ensures shorter { OnOk result (length ahead.new ≤ length ahead.old) }
{
    let Some(op) = ahead.operator(ends, level) else {
        return Ok(left);
    };
    let right = expression(alloc, ahead, ends, operand)?;
    node::pair(alloc, op, left, right)
}

/// An operand with the signs before it.
#[cycle(expression)]
fn signed(alloc: Global, ahead: &mut Ahead<'_>, ends: bool) -> Result<Expr, Refusal>
    ensures read { IsRead expr_seen (λ d. (readers d).level ends Prefixes ahead.old) ahead.new result }
    ensures shorter { OnOk result (length ahead.new < length ahead.old) }
{
    let Some(sign) = ahead.sign() else {
        let tree = primary(alloc, ahead)?;
        return climb(alloc, ahead, ends, Level::Primary, Level::Memberships, tree);
    };
    let start = sign.first.start;
    match sign.kind {
        SignKind::Plain(op) => prefixed(alloc, ahead, ends, op, start),
        SignKind::Counted => counted(alloc, ahead, ends, start),
        SignKind::Windowed(op) => windowed(alloc, ahead, ends, op, start),
        SignKind::Big(op) => big(alloc, ahead, ends, op, start),
    }
}

/// The operand of a sign.
#[cycle(expression)]
fn prefixed(
    alloc: Global,
    ahead: &mut Ahead<'_>,
    ends: bool,
    op: Op,
    start: u64,
) -> Result<Expr, Refusal>
    ensures read { (l : GrammarLexeme) → l.start ≡ start → IsRead expr_seen (λ d. prefixed (readers d) ends op l ahead.old) ahead.new result }
    ensures shorter { OnOk result (length ahead.new < length ahead.old) }
{
    let part = expression(alloc, ahead, ends, Level::Prefixes)?;
    node::prefix(alloc, start, op, part)
}

/// A number of steps in its bracket, and the operand.
#[cycle(expression)]
fn counted(alloc: Global, ahead: &mut Ahead<'_>, ends: bool, start: u64) -> Result<Expr, Refusal>
    ensures read { (l : GrammarLexeme) → l.start ≡ start → IsRead expr_seen (λ d. counted (readers d) ends l ahead.old) ahead.new result }
    ensures shorter { OnOk result (length ahead.new < length ahead.old) }
{
    let count = expression(alloc, ahead, false, Level::Releases)?;
    let _ = ahead.expect(Symbol::CloseBracket)?;
    let part = expression(alloc, ahead, ends, Level::Prefixes)?;
    node::count(alloc, start, count, part)
}

/// A window of steps in its bracket, and the operand.
#[cycle(expression)]
fn windowed(
    alloc: Global,
    ahead: &mut Ahead<'_>,
    ends: bool,
    op: Op,
    start: u64,
) -> Result<Expr, Refusal>
    ensures read { (l : GrammarLexeme) → l.start ≡ start → IsRead expr_seen (λ d. windowed (readers d) ends op l ahead.old) ahead.new result }
    ensures shorter { OnOk result (length ahead.new < length ahead.old) }
{
    let from = expression(alloc, ahead, false, Level::Releases)?;
    let _ = ahead.expect(Symbol::Colon)?;
    let to = expression(alloc, ahead, false, Level::Releases)?;
    let _ = ahead.expect(Symbol::CloseBracket)?;
    let part = expression(alloc, ahead, ends, Level::Prefixes)?;
    node::window(alloc, start, op, (from, to), part)
}

/// The ranges of a big operator in their bracket, and the operand.
#[cycle(expression)]
fn big(
    alloc: Global,
    ahead: &mut Ahead<'_>,
    ends: bool,
    op: Op,
    start: u64,
) -> Result<Expr, Refusal>
    ensures read { (l : GrammarLexeme) → l.start ≡ start → IsRead expr_seen (λ d. big_with (readers d) ends op l ahead.old) ahead.new result }
    ensures shorter { OnOk result (length ahead.new < length ahead.old) }
{
    let _ = ahead.expect(Symbol::OpenBracket)?;
    let ranges = ranges(alloc, ahead)?;
    let _ = ahead.expect(Symbol::CloseBracket)?;
    let part = expression(alloc, ahead, ends, Level::Prefixes)?;
    node::big(alloc, start, op, ranges, part)
}

/// One or more ranges with commas between.
#[cycle(expression)]
fn ranges(alloc: Global, ahead: &mut Ahead<'_>) -> Result<Vec<Range>, Refusal>
    ensures read { IsRead ranges_seen (λ d. (readers d).ranges ahead.old) ahead.new result }
    ensures shorter { OnOk result (length ahead.new < length ahead.old) }
{
    let mut ranges = Vec::new(alloc);
    loop {
        let range = range(alloc, ahead)?;
        ranges.push(range)?;
        let Some(_) = ahead.next_if(Symbol::Comma) else {
            return Ok(ranges);
        };
    }
}

/// A range over the members of a set begins with a name and `IN`, any other with its lower bound.
#[cycle(expression)]
fn range(alloc: Global, ahead: &mut Ahead<'_>) -> Result<Range, Refusal>
    ensures read { IsRangeRead ahead.old ahead.new result }
    ensures shorter { OnOk result (length ahead.new < length ahead.old) }
{
    if let Some(name) = ahead.name_in() {
        let set = expression(alloc, ahead, false, Level::Releases)?;
        return node::members(alloc, name, set);
    }
    let low = expression(alloc, ahead, false, Level::Sums)?;
    let low_strict = ahead.bound()?;
    let name = ahead.expect(Symbol::Ident)?;
    let high_strict = ahead.bound()?;
    let high = expression(alloc, ahead, false, Level::Sums)?;
    node::between(alloc, (low, low_strict), name, (high_strict, high))
}

/// A primary expression.
#[cycle(expression)]
fn primary(alloc: Global, ahead: &mut Ahead<'_>) -> Result<Expr, Refusal>
    ensures read { IsRead expr_seen (λ d. primary_with (readers d) ahead.old) ahead.new result }
    ensures shorter { OnOk result (length ahead.new < length ahead.old) }
{
    let refusal = ahead.refusal();
    let Some(first) = ahead.take() else {
        return Err(refusal);
    };
    match first.symbol {
        Symbol::Number => Ok(node::number(first)),
        Symbol::True => Ok(node::truth(first, true)),
        Symbol::False => Ok(node::truth(first, false)),
        Symbol::Ident => word(alloc, ahead, first),
        Symbol::SizeOf => {
            let part = primary(alloc, ahead)?;
            node::size_of(alloc, first.start, part)
        }
        Symbol::OpenParen => grouped(alloc, ahead, first),
        Symbol::OpenBrace => set(alloc, ahead, first),
        _ => Err(refusal),
    }
}

/// What stands after an opening parenthesis.
#[cycle(expression)]
fn grouped(alloc: Global, ahead: &mut Ahead<'_>, first: Lexeme<'_>) -> Result<Expr, Refusal>
    ensures read { IsRead expr_seen (λ d. grouped_with (readers d) (seen first.entry) ahead.old) ahead.new result }
    ensures shorter { OnOk result (length ahead.new ≤ length ahead.old) }
{
    let inner = expression(alloc, ahead, false, Level::Releases)?;
    let last = ahead.expect(Symbol::CloseParen)?;
    node::paren(alloc, first, last, inner)
}

/// A name, with its arguments or its index.
#[cycle(expression)]
fn word(alloc: Global, ahead: &mut Ahead<'_>, first: Lexeme<'_>) -> Result<Expr, Refusal>
    ensures read { IsRead expr_seen (λ d. word_with (readers d) (seen first.entry) ahead.old) ahead.new result }
    ensures shorter { OnOk result (length ahead.new ≤ length ahead.old) }
{
    if let Some(_) = ahead.next_if(Symbol::OpenParen) {
        let arguments = expressions(alloc, ahead)?;
        let last = ahead.expect(Symbol::CloseParen)?;
        return node::call(alloc, first, last, arguments);
    }
    if let Some(_) = ahead.next_if(Symbol::OpenBracket) {
        let index = expression(alloc, ahead, false, Level::Releases)?;
        let last = ahead.expect(Symbol::CloseBracket)?;
        return node::index(alloc, first, last, index);
    }
    node::named(alloc, first)
}

/// What stands after an opening brace.
#[cycle(expression)]
fn set(alloc: Global, ahead: &mut Ahead<'_>, first: Lexeme<'_>) -> Result<Expr, Refusal>
    ensures read { IsRead expr_seen (λ d. set_with (readers d) (seen first.entry) ahead.old) ahead.new result }
    ensures shorter { OnOk result (length ahead.new ≤ length ahead.old) }
{
    if let Some(last) = ahead.next_if(Symbol::CloseBrace) {
        return Ok(node::set(first, last, Vec::new(alloc)));
    }
    let one = expression(alloc, ahead, false, Level::Releases)?;
    if let Some(_) = ahead.next_if(Symbol::Comma) {
        let two = expression(alloc, ahead, false, Level::Releases)?;
        return longer_set(alloc, ahead, first, one, two);
    }
    let members = node::single(alloc, one)?;
    close_set(ahead, first, members)
}

/// What stands after two members of a set.
#[cycle(expression)]
fn longer_set(
    alloc: Global,
    ahead: &mut Ahead<'_>,
    first: Lexeme<'_>,
    one: Expr,
    two: Expr,
) -> Result<Expr, Refusal>
    ensures read { IsRead expr_seen (λ d. set_third (readers d) (seen first.entry) (expr_seen one) (expr_seen two) ahead.old) ahead.new result }
    ensures shorter { OnOk result (length ahead.new ≤ length ahead.old) }
{
    if let Some(_) = ahead.next_if(Symbol::Dots) {
        let three = expression(alloc, ahead, false, Level::Releases)?;
        let last = ahead.expect(Symbol::CloseBrace)?;
        return node::steps(alloc, first, last, (one, two, three));
    }
    let members = node::both(alloc, one, two)?;
    let Some(_) = ahead.next_if(Symbol::Comma) else {
        return close_set(ahead, first, members);
    };
    let more = expressions(alloc, ahead)?;
    let members = node::appended(members, more)?;
    close_set(ahead, first, members)
}

/// The closing brace of a set with these members.
fn close_set(ahead: &mut Ahead<'_>, first: Lexeme<'_>, members: Vec<Expr>) -> Result<Expr, Refusal>
    ensures read { IsRead expr_seen (λ _. close_set (seen first.entry) (trees_seen members.items) ahead.old) ahead.new result }
    ensures shorter { OnOk result (length ahead.new < length ahead.old) }
{
    let last = ahead.expect(Symbol::CloseBrace)?;
    Ok(node::set(first, last, members))
}

/// One or more expressions with commas between.
#[cycle(expression)]
pub(crate) fn expressions(alloc: Global, ahead: &mut Ahead<'_>) -> Result<Vec<Expr>, Refusal>
    ensures read { IsRead list_seen (λ d. (readers d).list ahead.old) ahead.new result }
    ensures shorter { OnOk result (length ahead.new < length ahead.old) }
{
    let mut list = Vec::new(alloc);
    loop {
        let tree = expression(alloc, ahead, false, Level::Releases)?;
        list.push(tree)?;
        let Some(_) = ahead.next_if(Symbol::Comma) else {
            return Ok(list);
        };
    }
}
