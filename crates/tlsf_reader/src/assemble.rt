//! The tree of a text, each part of it in one place.

ghost use Rattle.std.specs.Prelude.{◌≡◌, [], map, IfOk};
ghost use Rattle.tlsf_reader.specs.Assembly.{put_field, put_section, put_part, put_parts, sections_seen};
ghost use Rattle.tlsf_syntax.specs.Text.{no_sections};
ghost use Rattle.tlsf_reader.specs.Parts.{info_of, definitions_of, text_of};
ghost use Rattle.tlsf_reader.specs.TextView.{each, block_view, field_view, part_view, written_view};
ghost use Rattle.tlsf_syntax.specs.Seen.{expr_seen, definition_seen, info_seen, text_seen};

use crate::written::{Block, Field, Part, Written};
use letters_and_lassos::Kind;
use names_and_numbers::Name;
use std::alloc::{AllocError, Global};
use tlsf_syntax::{Definition, Expr, Info, Sections, SpecTree};
use tlsf_tokens::Section;

/// INFO without fields.
fn no_info(alloc: Global) -> Result<Info, AllocError>
    ensures { IfOk result (λ info. info_seen info ≡ info_of []) }
{
    let title = Name::new(alloc, b"")?;
    let description = Name::new(alloc, b"")?;
    Ok(Info {
        title,
        description,
        tags: Vec::new(alloc),
        semantics: Kind::Mealy,
        strict: false,
        target: Kind::Mealy,
        target_at: 0,
    })
}

/// Sets what a field says.
fn set_field(info: &mut Info, field: Field)
    ensures { info_seen info.new ≡ put_field (field_view field) (info_seen info.old) }
{
    match field {
        Field::Title(title) => info.title = title,
        Field::Description(description) => info.description = description,
        Field::Semantics { kind, strict } => {
            info.semantics = kind;
            info.strict = strict;
        }
        Field::Target { kind, at } => {
            info.target = kind;
            info.target_at = at;
        }
        Field::Tags(tags) => info.tags = tags,
    }
}

/// What the fields say, of each the first.
fn info(alloc: Global, fields: Vec<Field>) -> Result<Info, AllocError>
    ensures { IfOk result (λ info. info_seen info ≡ info_of (each field_view fields)) }
{
    let mut info = no_info(alloc)?;
    let mut left = fields;
    while let Some(field) = left.pop() {
        set_field(&mut info, field);
    }
    Ok(info)
}

/// The definitions of all blocks, in the order written.
fn definitions(alloc: Global, blocks: Vec<Block>) -> Result<Vec<Definition>, AllocError>
    ensures { IfOk result (λ list. (each definition_seen) list ≡ definitions_of (each block_view blocks)) }
{
    let mut all = Vec::new(alloc);
    for block in blocks {
        let mut list = match block {
            Block::Parameters(list) | Block::Definitions(list) => list,
        };
        all.append(&mut list)?;
    }
    Ok(all)
}

/// No formula in any section.
fn no_formulas(alloc: Global) -> Sections<Vec<Expr>>
    ensures { sections_seen result ≡ no_sections }
{
    Sections {
        initially: Vec::new(alloc),
        preset: Vec::new(alloc),
        require: Vec::new(alloc),
        assert: Vec::new(alloc),
        assume: Vec::new(alloc),
        guarantee: Vec::new(alloc),
    }
}

/// Sets the formulas of a section.
fn set_section(sections: &mut Sections<Vec<Expr>>, section: Section, formulas: Vec<Expr>)
    ensures { sections_seen sections.new ≡ put_section section (each expr_seen formulas) (sections_seen sections.old) }
{
    match section {
        Section::Initially => sections.initially = formulas,
        Section::Preset => sections.preset = formulas,
        Section::Require => sections.require = formulas,
        Section::Assert => sections.assert = formulas,
        Section::Assume => sections.assume = formulas,
        Section::Guarantee => sections.guarantee = formulas,
    }
}

/// Sets what a part of MAIN says.
fn set_part(tree: &mut SpecTree, part: Part)
    ensures { text_seen tree.new ≡ put_part (part_view part) (text_seen tree.old) }
{
    match part {
        Part::Inputs(inputs) => tree.inputs = inputs,
        Part::Outputs(outputs) => tree.outputs = outputs,
        Part::Section { section, formulas } => set_section(&mut tree.sections, section, formulas),
    }
}

/// Sets what the parts say, of each the first.
fn set_parts(tree: &mut SpecTree, parts: Vec<Part>)
    ensures { text_seen tree.new ≡ put_parts (text_seen tree.old) (each part_view parts) }
{
    let mut left = parts;
    while let Some(part) = left.pop() {
        set_part(tree, part);
    }
}

/// The tree of a text in which no part is given twice.
pub(crate) fn assemble(alloc: Global, written: Written) -> Result<SpecTree, AllocError>
    ensures { IfOk result (λ tree. text_seen tree ≡ text_of (written_view written)) }
{
    let mut tree = SpecTree {
        info: info(alloc, written.fields)?,
        definitions: definitions(alloc, written.blocks)?,
        inputs: Vec::new(alloc),
        outputs: Vec::new(alloc),
        sections: no_formulas(alloc),
    };
    set_parts(&mut tree, written.parts);
    Ok(tree)
}
