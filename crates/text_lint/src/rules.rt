use crate::formulas::{Formula, Text, has, has_call, is_temporal, joints};
use crate::lint::Found;
use shown_text::push_shown;
use std::alloc::AllocError;
use tlsf_tokens::{Section, Symbol, Token};

/// Adds the signals of a block that stand nowhere else.
pub(crate) fn push_unread(
    text: &Text<'_>,
    block: &[Token],
    what: &str,
    found: &mut Found,
) -> Result<(), AllocError> {
    for two in block.windows(2) {
        let [name, next] = two else {
            continue;
        };
        let is_signal = name.symbol == Symbol::Ident
            && matches!(next.symbol, Symbol::Semicolon | Symbol::OpenBracket);
        if is_signal && text.count(text.tokens(), text.word(*name)) == 1 {
            let mut said = String::from_str(found.alloc, "nothing speaks of the ")?;
            said.push_str(what)?;
            said.push_str(" `")?;
            push_shown(found.alloc, text.word(*name).as_bytes(), &mut said)?;
            said.push('`')?;
            found.add(text, two, said)?;
        }
    }
    Ok(())
}

fn add(text: &Text<'_>, tokens: &[Token], said: &str, found: &mut Found) -> Result<(), AllocError> {
    let said = String::from_str(found.alloc, said)?;
    found.add(text, tokens, said)
}

/// Adds a guarantee or an assumption that speaks of the first steps alone.
pub(crate) fn push_first_step(
    text: &Text<'_>,
    formula: Formula<'_>,
    found: &mut Found,
) -> Result<(), AllocError> {
    let Formula { section, tokens } = formula;
    if tokens.iter().any(|token| is_temporal(token.symbol)) || has_call(tokens) {
        return Ok(());
    }
    let said = match section {
        Section::Guarantee => {
            "this guarantee has no `G`, so it speaks of the first step alone, and the steps that `X` names from there"
        },
        Section::Assume => {
            "this assumption has no `G`, so it speaks of the first step alone, and the steps that `X` names from there"
        },
        _ => return Ok(()),
    };
    add(text, tokens, said, found)
}

/// Adds an assumption over outputs alone.
pub(crate) fn push_one_sided(
    text: &Text<'_>,
    formula: Formula<'_>,
    found: &mut Found,
) -> Result<(), AllocError> {
    let Formula { section, tokens } = formula;
    let is_assumed = matches!(
        section,
        Section::Assume | Section::Require | Section::Initially
    );
    if is_assumed
        && !has_call(tokens)
        && text.speaks_of(tokens, &text.outputs)
        && !text.speaks_of(tokens, &text.inputs)
    {
        let said =
            "this assumption speaks of outputs alone: a system may break it, and then it owes nothing more";
        return add(text, tokens, said, found);
    }
    Ok(())
}

/// Adds a formula that is true or false by itself: it has several tokens and speaks of no signal, or joins a formula with itself or with its negation.
pub(crate) fn push_constant(
    text: &Text<'_>,
    formula: Formula<'_>,
    found: &mut Found,
) -> Result<(), AllocError> {
    let tokens = formula.tokens;
    // A text that says `true` or `false` alone means it.
    if tokens.len() > 1 && !has(tokens, Symbol::Ident) {
        return add(
            text,
            tokens,
            "this speaks of no signal, so it is true or false by itself",
            found,
        );
    }
    let body = body(tokens);
    let joints = joints(found.alloc, body)?;
    let [place] = joints.as_slice() else {
        return Ok(());
    };
    let left = body.get(..*place).unwrap_or(&[]);
    let right = body.get(place.saturating_add(1)..).unwrap_or(&[]);
    let operator = body.get(*place).map(|token| token.symbol);
    let is_same = text.written(left) == text.written(right);
    let is_opposite = is_negation(text, left, right) || is_negation(text, right, left);
    let said = match operator {
        Some(Symbol::Implies | Symbol::Equiv) if is_same =>
            "this joins a formula with itself, so it is true by itself",
        Some(Symbol::Or) if is_opposite =>
            "this joins a formula with its negation by `||`, so it is true by itself",
        Some(Symbol::And) if is_opposite =>
            "this joins a formula with its negation by `&&`, so it is false by itself",
        _ => return Ok(()),
    };
    add(text, tokens, said, found)
}

/// A formula without the G or F before its parentheses, and without these.
fn body(tokens: &[Token]) -> &[Token] {
    match tokens {
        [first, open, inner @ .., close]
            if matches!(first.symbol, Symbol::Globally | Symbol::Finally)
                && open.symbol == Symbol::OpenParen
                && close.symbol == Symbol::CloseParen => inner,
        _ => tokens,
    }
}

/// Whether the first tokens are `!` and the others.
fn is_negation(text: &Text<'_>, tokens: &[Token], others: &[Token]) -> bool {
    match tokens {
        [first, rest @ ..] => {
            first.symbol == Symbol::Not && text.written(rest) == text.written(others)
        },
        _ => false,
    }
}

/// Adds each window between two numbers that is empty.
pub(crate) fn push_windows(
    text: &Text<'_>,
    tokens: &[Token],
    found: &mut Found,
) -> Result<(), AllocError> {
    for six in tokens.windows(6) {
        let [operator, open, from, colon, to, close] = six else {
            continue;
        };
        let is_window = open.symbol == Symbol::OpenBracket
            && colon.symbol == Symbol::Colon
            && close.symbol == Symbol::CloseBracket;
        let said = match operator.symbol {
            Symbol::Finally =>
                "this window is empty, since its first step is behind its last: with `F` it is false",
            Symbol::Globally =>
                "this window is empty, since its first step is behind its last: with `G` it is true",
            _ => continue,
        };
        if is_window && is_above(text.number(*from), text.number(*to)) {
            add(text, six, said, found)?;
        }
    }
    Ok(())
}

fn is_above(from: Option<u64>, to: Option<u64>) -> bool {
    match (from, to) {
        (Some(from), Some(to)) => from > to,
        _ => false,
    }
}
