//! Texts in basic TLSF.

ghost use Rattle.flat_lines.specs.FlatLines.{CanBeWritten};
ghost use Rattle.ltl_formula.specs.Nodes.{IsNodeIn};
ghost use Rattle.tlsf_expand.specs.FlatText.{spec_seen};

use crate::beside::Taken;
use crate::faults::TextFault;
use crate::infix::put_whole;
use crate::sections::{
    ASSERT, ASSUME, FlatLines, GUARANTEE, INITIALLY, PRESET, REQUIRE, put_opened,
};
use flat_lines::all_names;
use letters_and_lassos::Kind;
use machine_table::{Part, Text};
use names_and_numbers::Name;
use std::alloc::{AllocError, Global};

const NO_APART: &str =
    "for strict semantics a guarantee says less than an ASSERT, so none can stand in its place";

const PRESET_STAYS: &str = "PRESET stays as it is, since it binds the system whatever is assumed";

/// Puts the expanded text.
pub(crate) fn put_same(alloc: Global, taken: &Taken, out: &mut Text) -> Result<(), AllocError>
    requires { CanBeWritten (spec_seen taken.now.spec) }
{
    let lines = FlatLines::of(alloc, taken)?;
    let spec = &taken.spec;
    put_head(spec.kind, spec.strict, &spec.inputs, &spec.outputs, out);
    for section in [INITIALLY, PRESET, REQUIRE, ASSERT, ASSUME, GUARANTEE] {
        lines.put_section(section, out);
    }
    out.put("}\n");
    Ok(())
}

/// Puts the text with a guarantee for each formula of ASSERT, and of PRESET where nothing is assumed, and gives what a reader should know of it.
pub(crate) fn put_apart(
    alloc: Global,
    taken: &Taken,
    out: &mut Text,
) -> Result<Option<&'static str>, TextFault>
    requires { CanBeWritten (spec_seen taken.now.spec) }
{
    let spec = &taken.spec;
    if spec.strict {
        return Err(TextFault::NoSuchForm(NO_APART));
    }
    let lines = FlatLines::of(alloc, taken)?;
    let has_assumptions = lines.has(REQUIRE) || lines.has(ASSUME);
    put_head(spec.kind, false, &spec.inputs, &spec.outputs, out);
    lines.put_section(INITIALLY, out);
    if has_assumptions {
        lines.put_section(PRESET, out);
    }
    lines.put_section(REQUIRE, out);
    lines.put_section(ASSUME, out);
    put_opened(GUARANTEE, out);
    if !has_assumptions {
        lines.put_formulas(PRESET, "", "", out);
    }
    lines.put_formulas(ASSERT, "(G ", ")", out);
    lines.put_formulas(GUARANTEE, "", "", out);
    out.put("  }\n}\n");
    if has_assumptions && lines.has(PRESET) {
        Ok(Some(PRESET_STAYS))
    } else {
        Ok(None)
    }
}

/// Puts the task of the environment, whose machines a counter-machine is one of.
pub(crate) fn put_dual(alloc: Global, taken: &Taken, out: &mut Text) -> Result<(), AllocError>
    requires writable { CanBeWritten (spec_seen taken.now.spec) }
    requires stands { IsNodeIn taken.now.spec.formulas taken.now.spec.whole }
{
    let spec = &taken.spec;
    let names = all_names(alloc, spec)?;
    put_head(spec.kind.other(), false, &spec.outputs, &spec.inputs, out);
    put_opened(GUARANTEE, out);
    out.put("    !");
    put_whole(alloc, taken, &names, out)?;
    out.put(";\n  }\n}\n");
    Ok(())
}

/// Puts the text up to its sections.
fn put_head(kind: Kind, is_strict: bool, inputs: &[Name], outputs: &[Name], out: &mut Text) {
    let strict = if is_strict { ",Strict" } else { "" };
    out.put("INFO {\n  TITLE: \"a text, expanded\"\n  DESCRIPTION: \"written by boundsyn-show\"\n");
    out.fill(
        "  SEMANTICS: {}{}\n  TARGET: {}\n}\nMAIN {\n",
        &[
            Part::Word(kind.word()),
            Part::Word(strict),
            Part::Word(kind.word()),
        ],
    );
    put_signals("  INPUTS {\n", inputs, out);
    put_signals("  OUTPUTS {\n", outputs, out);
}

/// Declares signals; those of a bus, which stand together and in order, by its width.
fn put_signals(opening: &str, names: &[Name], out: &mut Text) {
    out.put(opening);
    for name in names {
        match bus_of(name.bytes()) {
            Some(base) if begins_bus(name.bytes()) => {
                out.put("    ");
                out.put_bytes(base);
                out.fill("[{}];\n", &[Part::Number(width_of(base, names))]);
            }
            Some(_) => {}
            None => {
                out.put("    ");
                out.put_bytes(name.bytes());
                out.put(";\n");
            }
        }
    }
    out.put("  }\n");
}

/// The bus to which a signal belongs.
fn bus_of(name: &[u8]) -> Option<&[u8]> {
    let place = name.iter().position(|byte| *byte == b'[')?;
    name.get(..place)
}

fn begins_bus(name: &[u8]) -> bool {
    name.ends_with(b"[0]")
}

fn width_of(base: &[u8], names: &[Name]) -> u64 {
    let width = names
        .iter()
        .filter(|name| bus_of(name.bytes()) == Some(base))
        .count();
    width as u64
}
