//! The descent for MAIN.

ghost use Rattle.std.specs.Prelude.{◌≡◌, ◌<◌, ◌≤◌, length, OnOk};
ghost use Rattle.tlsf_syntax.specs.TextReading.{declaration_read, declarations_read, formulas_read, parts_read};
ghost use Rattle.tlsf_syntax.specs.Seen.{declaration_seen, expr_seen};
ghost use Rattle.tlsf_reader.specs.TextView.{part_view, each};
ghost use Rattle.tlsf_reader.specs.Descent.{IsRead};
ghost use Rattle.tlsf_reader.specs.TextDescent.{formula_read, part_at};

use crate::ahead::Ahead;
use crate::expression::expression;
use crate::node;
use crate::rest::Refusal;
use crate::written::Part;
use std::alloc::Global;
use tlsf_syntax::{Declaration, Expr, Level, Shape};
use tlsf_tokens::Symbol;

/// The declaration of a signal, a bus, or a bus of an enumeration's width.
fn declaration(alloc: Global, ahead: &mut Ahead<'_>) -> Result<Declaration, Refusal>
    ensures read { IsRead declaration_seen (λ d. declaration_read d ahead.old) ahead.new result }
    ensures shorter { OnOk result (length ahead.new < length ahead.old) }
{
    let first = ahead.expect(Symbol::Ident)?;
    let word = node::word(alloc, first)?;
    if let Some(_) = ahead.next_if(Symbol::Semicolon) {
        return Ok(Declaration {
            word,
            shape: Shape::Single,
        });
    }
    if let Some(_) = ahead.next_if(Symbol::OpenBracket) {
        let width = expression(alloc, ahead, false, Level::Releases)?;
        let _ = ahead.expect(Symbol::CloseBracket)?;
        let _ = ahead.expect(Symbol::Semicolon)?;
        return Ok(Declaration {
            word,
            shape: Shape::Bus(width),
        });
    }
    let second = ahead.expect(Symbol::Ident)?;
    let _ = ahead.expect(Symbol::Semicolon)?;
    let name = node::word(alloc, second)?;
    Ok(Declaration {
        word: name,
        shape: Shape::Typed(word),
    })
}

/// The content of INPUTS or OUTPUTS, up to its closing brace.
fn declarations(alloc: Global, ahead: &mut Ahead<'_>) -> Result<Vec<Declaration>, Refusal>
    ensures read { IsRead (each declaration_seen) (λ d. declarations_read d ahead.old) ahead.new result }
    ensures shorter { OnOk result (length ahead.new ≤ length ahead.old) }
{
    let mut declarations = Vec::new(alloc);
    while !ahead.begins(Symbol::CloseBrace) {
        let declaration = declaration(alloc, ahead)?;
        declarations.push(declaration)?;
    }
    Ok(declarations)
}

/// A formula of a section, with its semicolon.
fn formula(alloc: Global, ahead: &mut Ahead<'_>) -> Result<Expr, Refusal>
    ensures read { IsRead expr_seen (λ d. formula_read d ahead.old) ahead.new result }
    ensures shorter { OnOk result (length ahead.new < length ahead.old) }
{
    let formula = expression(alloc, ahead, false, Level::Releases)?;
    let _ = ahead.expect(Symbol::Semicolon)?;
    Ok(formula)
}

/// The content of a section, up to its closing brace.
fn formulas(alloc: Global, ahead: &mut Ahead<'_>) -> Result<Vec<Expr>, Refusal>
    ensures read { IsRead (each expr_seen) (λ d. formulas_read d ahead.old) ahead.new result }
    ensures shorter { OnOk result (length ahead.new ≤ length ahead.old) }
{
    let mut formulas = Vec::new(alloc);
    while !ahead.begins(Symbol::CloseBrace) {
        let formula = formula(alloc, ahead)?;
        formulas.push(formula)?;
    }
    Ok(formulas)
}

/// A part of MAIN.
fn part(alloc: Global, ahead: &mut Ahead<'_>) -> Result<Part, Refusal>
    ensures read { IsRead part_view (λ d. part_at d ahead.old) ahead.new result }
    ensures shorter { OnOk result (length ahead.new < length ahead.old) }
{
    let refusal = ahead.refusal();
    let Some(first) = ahead.take() else {
        return Err(refusal);
    };
    match first.symbol {
        Symbol::Inputs => {
            let _ = ahead.expect(Symbol::OpenBrace)?;
            let inputs = declarations(alloc, ahead)?;
            let _ = ahead.expect(Symbol::CloseBrace)?;
            Ok(Part::Inputs(inputs))
        }
        Symbol::Outputs => {
            let _ = ahead.expect(Symbol::OpenBrace)?;
            let outputs = declarations(alloc, ahead)?;
            let _ = ahead.expect(Symbol::CloseBrace)?;
            Ok(Part::Outputs(outputs))
        }
        Symbol::Section(section) => {
            let _ = ahead.expect(Symbol::OpenBrace)?;
            let formulas = formulas(alloc, ahead)?;
            let _ = ahead.expect(Symbol::CloseBrace)?;
            Ok(Part::Section { section, formulas })
        }
        _ => Err(refusal),
    }
}

/// The parts of MAIN, up to its closing brace.
pub(crate) fn parts(alloc: Global, ahead: &mut Ahead<'_>) -> Result<Vec<Part>, Refusal>
    ensures read { IsRead (each part_view) (λ d. parts_read d ahead.old) ahead.new result }
    ensures shorter { OnOk result (length ahead.new ≤ length ahead.old) }
{
    let mut parts = Vec::new(alloc);
    while !ahead.begins(Symbol::CloseBrace) {
        let part = part(alloc, ahead)?;
        parts.push(part)?;
    }
    Ok(parts)
}
