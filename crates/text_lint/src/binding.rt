use crate::formulas::{Text, bracket, has, is_temporal, joints};
use crate::lint::Found;
use shown_text::push_shown;
use std::alloc::AllocError;
use tlsf_tokens::{Symbol, Token};

/// Adds each operator of a formula that binds otherwise than it looks: in the formula, and in each of its parentheses.
pub(crate) fn push_binding(
    text: &Text<'_>,
    tokens: &[Token],
    found: &mut Found,
) -> Result<(), AllocError> {
    push_globally(text, tokens, found)?;
    push_until(text, tokens, found)?;
    for (place, token) in tokens.iter().enumerate() {
        if token.symbol == Symbol::OpenParen {
            let behind = tokens.get(place.saturating_add(1)..).unwrap_or(&[]);
            push_until(text, inside(behind), found)?;
        }
    }
    Ok(())
}

/// The tokens up to the end of the bracket in which they stand.
fn inside(tokens: &[Token]) -> &[Token] {
    let mut depth = 1u64;
    for (place, token) in tokens.iter().enumerate() {
        let (more, less) = bracket(token.symbol);
        depth = depth.saturating_add(more).saturating_sub(less);
        if depth == 0 {
            return tokens.get(..place).unwrap_or(&[]);
        }
    }
    tokens
}

/// Adds `G a -> b`: G speaks of a alone.
fn push_globally(text: &Text<'_>, tokens: &[Token], found: &mut Found) -> Result<(), AllocError> {
    let joints = joints(found.alloc, tokens)?;
    let [place] = joints.as_slice() else {
        return Ok(());
    };
    let (left, operator, right) = split(tokens, *place);
    let is_globally = symbol_at(left, 0) == Some(Symbol::Globally)
        && symbol_at(left, 1) != Some(Symbol::OpenBracket);
    let is_plain = left.iter().skip(1).all(|token| !is_temporal(token.symbol));
    let is_implied = matches!(operator, Some(Symbol::Implies | Symbol::Equiv));
    if is_globally && is_plain && is_implied && symbol_at(right, 0) != Some(Symbol::Globally) {
        return push_as_written(
            text,
            "`G` binds stronger than",
            (left, right),
            tokens,
            *place,
            found,
        );
    }
    Ok(())
}

/// Adds `a && b U c`, `a U b && c` and `!a U b`.
fn push_until(text: &Text<'_>, tokens: &[Token], found: &mut Found) -> Result<(), AllocError> {
    if has(tokens, Symbol::Comma) {
        return Ok(());
    }
    let joints = joints(found.alloc, tokens)?;
    let mut first = None;
    let mut count = 0u64;
    for place in &joints {
        if is_until(symbol_at(tokens, *place)) {
            first = Some(*place);
            count = count.saturating_add(1);
        }
    }
    let (Some(place), 1) = (first, count) else {
        return Ok(());
    };
    let (left, _, right) = split(tokens, place);
    if joints.len() > 1 {
        return push_as_written(
            text,
            "all other operators bind stronger than",
            (left, right),
            tokens,
            place,
            found,
        );
    }
    let is_prefix = matches!(
        symbol_at(left, 0),
        Some(Symbol::Not | Symbol::Next | Symbol::Finally | Symbol::Globally)
    );
    if is_prefix {
        return push_as_written(
            text,
            "the operator before it binds stronger than",
            (left, right),
            tokens,
            place,
            found,
        );
    }
    Ok(())
}

fn is_until(symbol: Option<Symbol>) -> bool {
    matches!(
        symbol,
        Some(Symbol::Until | Symbol::Release | Symbol::WeakUntil)
    )
}

fn symbol_at(tokens: &[Token], place: usize) -> Option<Symbol> {
    Some(tokens.get(place)?.symbol)
}

/// The tokens before a place, the symbol there, and the tokens behind it.
fn split(tokens: &[Token], place: usize) -> (&[Token], Option<Symbol>, &[Token]) {
    let left = tokens.get(..place).unwrap_or(&[]);
    let right = tokens.get(place.saturating_add(1)..).unwrap_or(&[]);
    (left, symbol_at(tokens, place), right)
}

/// Adds how the operator at a place joins what stands on its sides.
fn push_as_written(
    text: &Text<'_>,
    what: &str,
    sides: (&[Token], &[Token]),
    tokens: &[Token],
    place: usize,
    found: &mut Found,
) -> Result<(), AllocError> {
    let alloc = found.alloc;
    let (left, right) = sides;
    let operator = text.written(tokens.get(place..place.saturating_add(1)).unwrap_or(&[]));
    let mut said = String::from_str(alloc, what)?;
    said.push_str(" `")?;
    said.push_str(operator)?;
    said.push_str("`: as written this is `(")?;
    push_shown(alloc, text.written(left).as_bytes(), &mut said)?;
    said.push_str(") ")?;
    said.push_str(operator)?;
    said.push_str(" (")?;
    push_shown(alloc, text.written(right).as_bytes(), &mut said)?;
    said.push_str(")`")?;
    found.add(text, tokens, said)
}
