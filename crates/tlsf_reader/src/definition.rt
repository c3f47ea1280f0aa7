//! The descent for GLOBAL.

ghost use Rattle.std.specs.Prelude.{◌≡◌, ◌<◌, ◌≤◌, length, OnOk, IfOk, IfSome, option_map};
ghost use Rattle.tlsf_syntax.specs.Lexemes.{word_of};
ghost use Rattle.tlsf_syntax.specs.TextReading.{guard_read, alternatives_read, body_read, function_read, definition_read, definitions_read, parameters_read, blocks_read};
ghost use Rattle.tlsf_reader.specs.Seen.{seen};
ghost use Rattle.tlsf_syntax.specs.Seen.{body_seen, definition_seen, word_seen, expr_seen, alternative_seen};
ghost use Rattle.tlsf_reader.specs.Descent.{IsRead};
ghost use Rattle.tlsf_reader.specs.TextDescent.{enumeration_read, parameter_read, IsBlockRead};
ghost use Rattle.tlsf_reader.specs.TextView.{each, block_view};

use crate::ahead::Ahead;
use crate::enumeration::members;
use crate::expression::expression;
use crate::info::names;
use crate::lexeme::Lexeme;
use crate::node;
use crate::rest::Refusal;
use crate::written::Block;
use std::alloc::Global;
use tlsf_syntax::{Alternative, Body, Definition, Expr, Level, Word};
use tlsf_tokens::Symbol;

/// The guard of an alternative. `None` is `otherwise`.
fn guard(alloc: Global, ahead: &mut Ahead<'_>) -> Result<Option<Expr>, Refusal>
    ensures read { IsRead (option_map expr_seen) (λ d. guard_read d ahead.old) ahead.new result }
    ensures shorter { OnOk result (length ahead.new < length ahead.old) }
{
    if let Some(_) = ahead.next_if(Symbol::Otherwise) {
        return Ok(None);
    }
    let tree = expression(alloc, ahead, false, Level::Releases)?;
    Ok(Some(tree))
}

/// What stands after the guard of an alternative, and the alternatives after it, up to the semicolon.
fn alternatives(
    alloc: Global,
    ahead: &mut Ahead<'_>,
    first: Option<Expr>,
) -> Result<Vec<Alternative>, Refusal>
    ensures read { IsRead (each alternative_seen) (λ d. alternatives_read d (option_map expr_seen first) ahead.old) ahead.new result }
    ensures shorter { OnOk result (length ahead.new < length ahead.old) }
{
    let mut alternatives = Vec::new(alloc);
    let mut next = first;
    loop {
        let _ = ahead.expect(Symbol::Colon)?;
        let value = expression(alloc, ahead, true, Level::Releases)?;
        let alternative = Alternative { guard: next, value };
        alternatives.push(alternative)?;
        if ahead.begins(Symbol::Semicolon) {
            return Ok(alternatives);
        }
        next = guard(alloc, ahead)?;
    }
}

/// The body of a function: an expression, or alternatives with guards.
fn body(alloc: Global, ahead: &mut Ahead<'_>) -> Result<Body, Refusal>
    ensures read { IsRead body_seen (λ d. body_read d ahead.old) ahead.new result }
    ensures shorter { OnOk result (length ahead.new < length ahead.old) }
{
    if let Some(_) = ahead.next_if(Symbol::Otherwise) {
        let all = alternatives(alloc, ahead, None)?;
        return Ok(Body::Guarded(all));
    }
    let tree = expression(alloc, ahead, false, Level::Releases)?;
    if ahead.begins(Symbol::Colon) {
        let all = alternatives(alloc, ahead, Some(tree))?;
        return Ok(Body::Guarded(all));
    }
    Ok(Body::Plain(tree))
}

/// A body with its sign before it and its semicolon after it, for a function of this name.
fn function(
    alloc: Global,
    ahead: &mut Ahead<'_>,
    name: Lexeme<'_>,
    arguments: Vec<Word>,
) -> Result<Definition, Refusal>
    ensures read { IsRead definition_seen (λ d. function_read d (word_of (seen name.entry)) (each word_seen arguments) ahead.old) ahead.new result }
    ensures shorter { OnOk result (length ahead.new < length ahead.old) }
{
    let _ = ahead.expect(Symbol::Assign)?;
    let body = body(alloc, ahead)?;
    let _ = ahead.expect(Symbol::Semicolon)?;
    let word = node::word(alloc, name)?;
    Ok(Definition::Function {
        word,
        arguments,
        body,
    })
}

/// What stands after the word `enum`.
fn enumeration(alloc: Global, ahead: &mut Ahead<'_>) -> Result<Definition, Refusal>
    ensures read { IsRead definition_seen (λ d. enumeration_read d ahead.old) ahead.new result }
    ensures shorter { OnOk result (length ahead.new < length ahead.old) }
{
    let name = ahead.expect(Symbol::Ident)?;
    let _ = ahead.expect(Symbol::Assign)?;
    let members = members(alloc, ahead)?;
    let _ = ahead.next_if(Symbol::Semicolon);
    let word = node::word(alloc, name)?;
    Ok(Definition::Enumeration { word, members })
}

/// A function or an enumeration.
fn definition(alloc: Global, ahead: &mut Ahead<'_>) -> Result<Definition, Refusal>
    ensures read { IsRead definition_seen (λ d. definition_read d ahead.old) ahead.new result }
    ensures shorter { OnOk result (length ahead.new < length ahead.old) }
{
    if let Some(_) = ahead.next_if(Symbol::Enum) {
        return enumeration(alloc, ahead);
    }
    let name = ahead.expect(Symbol::Ident)?;
    if let Some(_) = ahead.next_if(Symbol::OpenParen) {
        let arguments = names(alloc, ahead)?;
        let _ = ahead.expect(Symbol::CloseParen)?;
        return function(alloc, ahead, name, arguments);
    }
    function(alloc, ahead, name, Vec::new(alloc))
}

/// The content of DEFINITIONS, up to its closing brace.
fn definitions(alloc: Global, ahead: &mut Ahead<'_>) -> Result<Vec<Definition>, Refusal>
    ensures read { IsRead (each definition_seen) (λ d. definitions_read d ahead.old) ahead.new result }
    ensures shorter { OnOk result (length ahead.new ≤ length ahead.old) }
{
    let mut definitions = Vec::new(alloc);
    while !ahead.begins(Symbol::CloseBrace) {
        let definition = definition(alloc, ahead)?;
        definitions.push(definition)?;
    }
    Ok(definitions)
}

/// A parameter with its value.
fn parameter(alloc: Global, ahead: &mut Ahead<'_>) -> Result<Definition, Refusal>
    ensures read { IsRead definition_seen (λ d. parameter_read d ahead.old) ahead.new result }
    ensures shorter { OnOk result (length ahead.new < length ahead.old) }
{
    let name = ahead.expect(Symbol::Ident)?;
    let _ = ahead.expect(Symbol::Assign)?;
    let value = expression(alloc, ahead, false, Level::Releases)?;
    let _ = ahead.expect(Symbol::Semicolon)?;
    let word = node::word(alloc, name)?;
    Ok(Definition::Parameter { word, value })
}

/// The content of PARAMETERS, up to its closing brace.
fn parameters(alloc: Global, ahead: &mut Ahead<'_>) -> Result<Vec<Definition>, Refusal>
    ensures read { IsRead (each definition_seen) (λ d. parameters_read d ahead.old) ahead.new result }
    ensures shorter { OnOk result (length ahead.new ≤ length ahead.old) }
{
    let mut parameters = Vec::new(alloc);
    while !ahead.begins(Symbol::CloseBrace) {
        let parameter = parameter(alloc, ahead)?;
        parameters.push(parameter)?;
    }
    Ok(parameters)
}

/// A part of GLOBAL, where one stands in front.
fn block(alloc: Global, ahead: &mut Ahead<'_>) -> Result<Option<Block>, Refusal>
    ensures read { IsBlockRead ahead.old ahead.new result }
    ensures shorter { OnOk result (length ahead.new ≤ length ahead.old) }
    ensures some { IfOk result (λ block. IfSome block (λ _. length ahead.new < length ahead.old)) }
{
    if let Some(_) = ahead.next_if(Symbol::Parameters) {
        let _ = ahead.expect(Symbol::OpenBrace)?;
        let parameters = parameters(alloc, ahead)?;
        let _ = ahead.expect(Symbol::CloseBrace)?;
        return Ok(Some(Block::Parameters(parameters)));
    }
    if let Some(_) = ahead.next_if(Symbol::Definitions) {
        let _ = ahead.expect(Symbol::OpenBrace)?;
        let definitions = definitions(alloc, ahead)?;
        let _ = ahead.expect(Symbol::CloseBrace)?;
        return Ok(Some(Block::Definitions(definitions)));
    }
    Ok(None)
}

/// The parts of GLOBAL.
pub(crate) fn blocks(alloc: Global, ahead: &mut Ahead<'_>) -> Result<Vec<Block>, Refusal>
    ensures read { IsRead (each block_view) (λ d. blocks_read d ahead.old) ahead.new result }
    ensures shorter { OnOk result (length ahead.new ≤ length ahead.old) }
{
    let mut blocks = Vec::new(alloc);
    while let Some(block) = block(alloc, ahead)? {
        blocks.push(block)?;
    }
    Ok(blocks)
}
