//! The lines of a flat text, before they are written.

ghost use Rattle.std.specs.Prelude.{◌≡◌, ◌++◌, map, IfOk};
ghost use Rattle.flat_lines.specs.FlatLines.{lines_in, section_word};
ghost use Rattle.tlsf_expand.specs.FlatText.{spec_seen};

use ltl_formula::FormulaId;
use std::alloc::{AllocError, Global};
use tlsf_expand::Spec;
use tlsf_tokens::Section;

/// The word of a section.
pub(crate) fn section_word(section: Section) -> &'static [u8]
    ensures { result.now ≡ section_word section }
{
    match section {
        Section::Initially => b"initially",
        Section::Preset => b"preset",
        Section::Require => b"require",
        Section::Assert => b"assert",
        Section::Assume => b"assume",
        Section::Guarantee => b"guarantee",
    }
}

/// What a line says.
#[derive(Clone, Copy)]
pub(crate) enum Line {
    Kinds,
    Inputs,
    Outputs,
    Formula(Section, FormulaId),
}

/// The lines in their order.
pub(crate) fn lines_in(alloc: Global, spec: &Spec) -> Result<Vec<Line>, AllocError>
    ensures { IfOk result (λ lines. lines.items ≡ lines_in (spec_seen spec.now).expanded) }
{
    let sections = &spec.sections;
    let mut lines = vec![in alloc; Line::Kinds, Line::Inputs, Line::Outputs]?;
    add_section(&mut lines, Section::Initially, &sections.initially)?;
    add_section(&mut lines, Section::Preset, &sections.preset)?;
    add_section(&mut lines, Section::Require, &sections.require)?;
    add_section(&mut lines, Section::Assert, &sections.assert)?;
    add_section(&mut lines, Section::Assume, &sections.assume)?;
    add_section(&mut lines, Section::Guarantee, &sections.guarantee)?;
    Ok(lines)
}

fn add_section(lines: &mut Vec<Line>, section: Section, ids: &[FormulaId]) -> Result<(), AllocError>
    ensures { IfOk result (λ _. lines.new.items ≡ lines.old.items ++ map (λ id. Line.Formula section id) ids.now) }
{
    for id in ids {
        lines.push(Line::Formula(section, *id))?;
    }
    Ok(())
}
