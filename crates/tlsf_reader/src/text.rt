//! The descent for a whole text.

ghost use Rattle.std.specs.Prelude.{◌≡◌, ◌<◌, ◌≤◌, length, map, OnOk};
ghost use Rattle.tlsf_syntax.specs.TextReading.{main_read, after_info, text_read};
ghost use Rattle.tlsf_reader.specs.Seen.{seen};
ghost use Rattle.tlsf_reader.specs.TextView.{written_view, each, field_view, block_view};
ghost use Rattle.tlsf_reader.specs.Descent.{IsRead};
ghost use Rattle.tlsf_reader.specs.TextDescent.{IsTextRead};

use crate::ahead::Ahead;
use crate::definition::blocks;
use crate::info::fields;
use crate::lexeme::Lexeme;
use crate::rest::Refusal;
use crate::section::parts;
use crate::written::{Block, Field, Written};
use std::alloc::Global;
use tlsf_tokens::Symbol;

/// MAIN, after these parts.
fn main_part(
    alloc: Global,
    ahead: &mut Ahead<'_>,
    fields: Vec<Field>,
    blocks: Vec<Block>,
) -> Result<Written, Refusal>
    ensures { IsRead written_view (λ d. main_read d (each field_view fields) (each block_view blocks) ahead.old) ahead.new result }
{
    let _ = ahead.expect(Symbol::Main)?;
    let _ = ahead.expect(Symbol::OpenBrace)?;
    let parts = parts(alloc, ahead)?;
    let _ = ahead.expect(Symbol::CloseBrace)?;
    Ok(Written {
        fields,
        blocks,
        parts,
    })
}

/// What stands after INFO: GLOBAL where it is there, and MAIN.
fn after_info(alloc: Global, ahead: &mut Ahead<'_>, fields: Vec<Field>) -> Result<Written, Refusal>
    ensures { IsRead written_view (λ d. after_info d (each field_view fields) ahead.old) ahead.new result }
{
    if let Some(_) = ahead.next_if(Symbol::Global) {
        let _ = ahead.expect(Symbol::OpenBrace)?;
        let blocks = blocks(alloc, ahead)?;
        let _ = ahead.expect(Symbol::CloseBrace)?;
        return main_part(alloc, ahead, fields, blocks);
    }
    main_part(alloc, ahead, fields, Vec::new(alloc))
}

/// INFO and what stands after it.
fn text(alloc: Global, ahead: &mut Ahead<'_>) -> Result<Written, Refusal>
    ensures { IsRead written_view (λ d. text_read d ahead.old) ahead.new result }
{
    let _ = ahead.expect(Symbol::Info)?;
    let _ = ahead.expect(Symbol::OpenBrace)?;
    let fields = fields(alloc, ahead)?;
    let _ = ahead.expect(Symbol::CloseBrace)?;
    after_info(alloc, ahead, fields)
}

/// The one text that these lexemes are, or the first unexpected one of them. It takes time and memory in proportion to
/// their number, and goes as deep as they are nested.
pub(crate) fn whole_text(alloc: Global, lexemes: &[Lexeme<'_>]) -> Result<Written, Refusal>
    ensures { IsTextRead (map seen lexemes.now) result }
{
    let mut ahead = Ahead::new(lexemes);
    let written = text(alloc, &mut ahead)?;
    if ahead.left() > 0 {
        return Err(ahead.refusal());
    }
    Ok(written)
}
