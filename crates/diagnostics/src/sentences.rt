use crate::around::Around;
use crate::text_faults::RefusedBy;
use shown_text::push_shown;
use spec_faults::SpecCode;
use std::alloc::{AllocError, Global};
use std::fmt::Write;
use tlsf_tokens::Symbol;

/// Appends what is wrong at the place, in the words of TLSF.
pub(crate) fn push_sentence(
    alloc: Global,
    around: &Around<'_>,
    code: SpecCode,
    by: RefusedBy,
    out: &mut String,
) -> Result<(), AllocError> {
    match code {
        SpecCode::BadByte => push_bad_byte(alloc, around, out),
        SpecCode::Unexpected => push_unexpected(alloc, around, out),
        SpecCode::Unclosed if around.rest().starts_with(b"/*") => {
            out.push_str("this comment isn't closed")
        },
        SpecCode::Unclosed => out.push_str("this text in quotes isn't closed"),
        SpecCode::Missing => push_missing(around, out),
        SpecCode::Twice => push_about(alloc, around, "", " is given a second time", out),
        SpecCode::UnknownName => push_about(alloc, around, "nothing declares ", "", out),
        SpecCode::WrongSort => push_about(
            alloc,
            around,
            "",
            " isn't of the sort that is wanted here",
            out,
        ),
        SpecCode::NoGuard => push_about(alloc, around, "no guard of ", " is true here", out),
        SpecCode::TooManySignals => {
            push_about(alloc, around, "with ", " ", out)?;
            out.push_str(fixed_sentence(code, by))
        },
        SpecCode::Unsupported => push_unsupported(alloc, around, out),
        _ => out.push_str(fixed_sentence(code, by)),
    }
}

/// What is wrong where nothing of the text is told.
pub(crate) fn fixed_sentence(code: SpecCode, by: RefusedBy) -> &'static str {
    match code {
        SpecCode::TooLong => "the text has over 1,048,576 bytes",
        SpecCode::BadByte => "no token of TLSF begins here",
        SpecCode::Unexpected => "this can't stand here",
        SpecCode::Unclosed => "a comment or a text in quotes isn't closed",
        SpecCode::Missing => "a field of INFO or a part of MAIN is missing",
        SpecCode::Twice => "this is given a second time",
        SpecCode::UnknownName => "nothing declares this name",
        SpecCode::WrongSort => "this isn't of the sort that is wanted here",
        SpecCode::IndexOut => "this index is below 0, or not below the width of the bus",
        SpecCode::ZeroDivisor => "this divisor is 0",
        SpecCode::NumberRange =>
            "a number passes 64 bits, a step is 0, or a width or a count is negative",
        SpecCode::NoGuard => "no guard is true here",
        SpecCode::TooDeep =>
            "this is nested too deep: over 128 deep as written, or over 1,024 as evaluated",
        SpecCode::TooManyNodes if by == RefusedBy::Solve => {
            "the formulas have over 4,096 different parts"
        },
        SpecCode::TooManyNodes => "the formulas have over 1,024 different parts",
        SpecCode::TooManySignals if by == RefusedBy::Solve => {
            "there are over 16 inputs or over 16 outputs"
        },
        SpecCode::TooManySignals => "there are over 8 inputs or over 8 outputs",
        SpecCode::TargetDiffers => "SEMANTICS and TARGET name different kinds",
        SpecCode::Unsupported => "this isn't supported",
        SpecCode::AutomatonTooLarge => {
            "the automaton passes a limit: 2,000 states, 200,000 edges, or 100,000 branches of one state"
        },
        SpecCode::ExpandTooLong => "the formulas take over 1,000,000 evaluations",
        SpecCode::TooManyGuarantees => "`core` takes at most 64 formulas under GUARANTEE",
    }
}

/// Appends the word at the place in a sentence.
fn push_about(
    alloc: Global,
    around: &Around<'_>,
    before: &str,
    behind: &str,
    out: &mut String,
) -> Result<(), AllocError> {
    out.push_str(before)?;
    push_word(alloc, around, out)?;
    out.push_str(behind)
}

/// Appends the word at the place in quotes.
fn push_word(alloc: Global, around: &Around<'_>, out: &mut String) -> Result<(), AllocError> {
    let word = around.word_found();
    if word.is_empty() {
        return out.push_str("this");
    }
    if matches!(
        around.found().map(|token| token.symbol),
        Some(Symbol::OpenParen | Symbol::OpenBrace)
    ) {
        out.push_str("what begins with ")?;
    }
    out.push('`')?;
    push_shown(alloc, word.as_bytes(), out)?;
    out.push('`')
}

/// Appends which byte no token begins with.
fn push_bad_byte(alloc: Global, around: &Around<'_>, out: &mut String) -> Result<(), AllocError> {
    let rest = around.rest();
    let valid = match rest.utf8_chunks().next() {
        Some(chunk) => chunk.valid(),
        None => "",
    };
    match valid.chars().next() {
        None => out.push_str("a byte that isn't ASCII stands in no comment and no text in quotes"),
        Some('\u{feff}') => out.push_str("a byte order mark stands here"),
        Some(character) if character.is_ascii() => {
            out.push_str("no token of TLSF begins with `")?;
            push_shown(alloc, rest.get(..1).unwrap_or(b""), out)?;
            out.push('`')
        },
        Some(character) => {
            out.push('`')?;
            push_shown(alloc, rest.get(..character.len_utf8()).unwrap_or(b""), out)?;
            out.push_str("` isn't ASCII, and stands in no comment and no text in quotes")
        },
    }
}

fn push_unexpected(alloc: Global, around: &Around<'_>, out: &mut String) -> Result<(), AllocError> {
    if around.found().is_none() {
        return out.push_str("the text ends before it is complete");
    }
    push_about(alloc, around, "", " can't stand here", out)
}

fn push_unsupported(
    alloc: Global,
    around: &Around<'_>,
    out: &mut String,
) -> Result<(), AllocError> {
    if around.stops_for(SpecCode::Unsupported) {
        let rest = around.rest();
        let len = rest
            .iter()
            .take_while(|byte| byte.is_ascii_alphabetic())
            .count();
        out.push('`')?;
        push_shown(alloc, rest.get(..len.max(1)).unwrap_or(b""), out)?;
        return out.push_str("` isn't supported");
    }
    push_about(alloc, around, "", " isn't supported", out)
}

/// Appends what the block that is closed at the place lacks.
fn push_missing(around: &Around<'_>, out: &mut String) -> Result<(), AllocError> {
    let (block, parts): (&str, &[(Symbol, &str)]) = match around.block().map(|token| token.symbol) {
        Some(Symbol::Info) => ("INFO", &FIELDS),
        _ => ("MAIN", &PARTS),
    };
    write!(out, "{block} lacks")?;
    let mut is_first = true;
    for (symbol, name) in parts {
        if !around.tokens().iter().any(|token| token.symbol == *symbol) {
            out.push_str(if is_first { " " } else { ", " })?;
            out.push_str(name)?;
            is_first = false;
        }
    }
    Ok(())
}

const FIELDS: [(Symbol, &str); 4] = [
    (Symbol::Title, "TITLE"),
    (Symbol::Description, "DESCRIPTION"),
    (Symbol::Semantics, "SEMANTICS"),
    (Symbol::Target, "TARGET"),
];

const PARTS: [(Symbol, &str); 2] = [(Symbol::Inputs, "INPUTS"), (Symbol::Outputs, "OUTPUTS")];
