ghost use Rattle.std.specs.Prelude.{◌≡◌, ◌++◌, ◌∷◌, [], All, flat_map, length, IfOk, OnOk, OnErr, IsErrOf};
ghost use Rattle.flat_lines.specs.FlatLines.{CanBeWritten, LineStands, all_names, ended_line, flat_bytes, flat_bytes_by, kind_line, line_by};
ghost use Rattle.ltl_formula.specs.Nodes.{IsNodeList};
ghost use Rattle.input_output.specs.Bytes.{Gains, GainsFront};
ghost use Rattle.input_output.specs.Faults.{Rose};
ghost use Rattle.tlsf_expand.specs.FlatText.{spec_seen};

use crate::lines::{Line, lines_in, section_word};
use crate::names::{all_names, write_names};
use input_output::{Sink, SinkFault};
use letters_and_lassos::Kind;
use ltl_formula::write_formula;
use names_and_numbers::Name;
use std::alloc::{AllocError, Global};
use tlsf_expand::Spec;

/// Writes a flat text, each line with its end by one call: the kind, with `strict` behind it for strict semantics; the names
/// of the inputs and those of the outputs; and each formula behind the word of its section. A formula's text can be
/// exponentially longer than the formula; one that is too long for memory is refused before it is begun.
pub fn put_flat<K: Sink>(alloc: Global, spec: &Spec, out: &mut K) -> Result<(), SinkFault>
    requires { CanBeWritten (spec_seen spec.now) }
    ensures ok { OnOk result (Gains (K.written out.old) (K.written out.new) (flat_bytes (spec_seen spec.now))) }
    ensures front { OnErr result (GainsFront (K.written out.old) (K.written out.new) (flat_bytes (spec_seen spec.now))) }
    ensures failed { IsErrOf result SinkFault.Failed → Rose (K.faults out.old) (K.faults out.new) }
{
    let names = all_names(alloc, spec)?;
    put_flat_by(alloc, spec, &names, out)
}

/// The same where signals have these names in formulas.
pub fn put_flat_by<K: Sink>(
    alloc: Global,
    spec: &Spec,
    names: &[Name],
    out: &mut K,
) -> Result<(), SinkFault>
    requires names { length names.now ≡ length (all_names (spec_seen spec.now).expanded) }
    requires writable { CanBeWritten (spec_seen spec.now) }
    ensures ok { OnOk result (Gains (K.written out.old) (K.written out.new) (flat_bytes_by names.now (spec_seen spec.now))) }
    ensures front { OnErr result (GainsFront (K.written out.old) (K.written out.new) (flat_bytes_by names.now (spec_seen spec.now))) }
    ensures failed { IsErrOf result SinkFault.Failed → Rose (K.faults out.old) (K.faults out.new) }
    ensures not_failed { OnOk result (K.faults out.new ≡ K.faults out.old) }
{
    let lines = lines_in(alloc, spec)?;
    put_lines(alloc, spec, names, &lines, out)
}

fn put_lines<K: Sink>(
    alloc: Global,
    spec: &Spec,
    names: &[Name],
    lines: &[Line],
    out: &mut K,
) -> Result<(), SinkFault>
    requires names { length names.now ≡ length (all_names (spec_seen spec.now).expanded) }
    requires writable { CanBeWritten (spec_seen spec.now) }
    requires stand { All (LineStands (spec_seen spec.now).formulas) lines.now }
    ensures ok { OnOk result (Gains (K.written out.old) (K.written out.new) (flat_map (ended_line names.now (spec_seen spec.now)) lines.now)) }
    ensures front { OnErr result (GainsFront (K.written out.old) (K.written out.new) (flat_map (ended_line names.now (spec_seen spec.now)) lines.now)) }
    ensures failed { IsErrOf result SinkFault.Failed → Rose (K.faults out.old) (K.faults out.new) }
    ensures not_failed { OnOk result (K.faults out.new ≡ K.faults out.old) }
{
    for line in lines {
        put_line(alloc, spec, names, *line, out)?;
    }
    Ok(())
}

fn put_line<K: Sink>(
    alloc: Global,
    spec: &Spec,
    names: &[Name],
    line: Line,
    out: &mut K,
) -> Result<(), SinkFault>
    requires names { length names.now ≡ length (all_names (spec_seen spec.now).expanded) }
    requires writable { CanBeWritten (spec_seen spec.now) }
    requires stands { LineStands (spec_seen spec.now).formulas line }
    ensures ok { OnOk result (Gains (K.written out.old) (K.written out.new) (ended_line names.now (spec_seen spec.now) line)) }
    ensures front { OnErr result (GainsFront (K.written out.old) (K.written out.new) (ended_line names.now (spec_seen spec.now) line)) }
    ensures failed { IsErrOf result SinkFault.Failed → Rose (K.faults out.old) (K.faults out.new) }
    ensures not_failed { OnOk result (K.faults out.new ≡ K.faults out.old) }
{
    let text = line_text(alloc, spec, names, line)?;
    out.put(&text)
}

/// A line with its end.
fn line_text(alloc: Global, spec: &Spec, names: &[Name], line: Line) -> Result<Vec<u8>, AllocError>
    requires names { length names.now ≡ length (all_names (spec_seen spec.now).expanded) }
    requires writable { CanBeWritten (spec_seen spec.now) }
    requires stands { LineStands (spec_seen spec.now).formulas line }
    ensures { IfOk result (λ text. text.items ≡ ended_line names.now (spec_seen spec.now) line) }
{
    let mut text = Vec::new(alloc);
    write_line(spec, names, line, &mut text)?;
    text.push(b'\n')?;
    Ok(text)
}

/// Appends the line without its end.
fn write_line(spec: &Spec, names: &[Name], line: Line, text: &mut Vec<u8>) -> Result<(), AllocError>
    requires names { length names.now ≡ length (all_names (spec_seen spec.now).expanded) }
    requires writable { CanBeWritten (spec_seen spec.now) }
    requires stands { LineStands (spec_seen spec.now).formulas line }
    ensures { IfOk result (λ _. text.new.items ≡ text.old.items ++ line_by names.now (spec_seen spec.now) line) }
{
    match line {
        Line::Kinds => text.extend_from_slice(kind_line(spec.kind, spec.strict)),
        Line::Inputs => write_names(b"inputs", &spec.inputs, text),
        Line::Outputs => write_names(b"outputs", &spec.outputs, text),
        Line::Formula(section, id) => {
            text.extend_from_slice(section_word(section))?;
            text.push(b' ')?;
            write_formula(&spec.formulas, id, names, text)
        },
    }
}

fn kind_line(kind: Kind, is_strict: bool) -> &'static [u8]
    ensures { result.now ≡ kind_line kind is_strict }
{
    match (kind, is_strict) {
        (Kind::Mealy, false) => b"kind Mealy",
        (Kind::Mealy, true) => b"kind Mealy strict",
        (Kind::Moore, false) => b"kind Moore",
        (Kind::Moore, true) => b"kind Moore strict",
    }
}
