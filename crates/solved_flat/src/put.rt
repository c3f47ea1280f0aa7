//! A text that was taken, written out flat.
ghost use Rattle.std.specs.Prelude.{◌≡◌, IfOk, IsErrOf, OnErr, OnOk, length};
ghost use Rattle.input_output.specs.Bytes.{Gains, GainsFront};
ghost use Rattle.input_output.specs.Faults.{Rose};
ghost use Rattle.tlsf_expand.specs.FlatText.{spec_seen};
ghost use Rattle.flat_lines.specs.FlatLines.{all_names};
ghost use Rattle.solved_flat.specs.Shown.{shown_names};
ghost use Rattle.solved_flat.specs.Taken.{CanBeAnswered, bytes_of_taken, list_of, sections_of, shift_seen};

use crate::lists::put_nodes;
use crate::names::shown_names;
use crate::texts::TakenText;
use flat_lines::{all_names, put_flat_by};
use input_output::{Sink, SinkFault};
use names_and_numbers::Name;
use std::alloc::{AllocError, Global};

/// Writes the text flat, with the formulas as they are taken, and behind it the list of formulas where it is asked for: each line with its end by one
/// call. A formula that is too long for memory is refused before it is begun.
pub fn put_taken<K: Sink>(
    alloc: Global,
    taken: &TakenText,
    with_nodes: bool,
    out: &mut K,
) -> Result<(), SinkFault>
    requires { CanBeAnswered taken.now }
    ensures ok { OnOk result (Gains (K.written out.old) (K.written out.new) (bytes_of_taken with_nodes taken.now)) }
    ensures front { OnErr result (GainsFront (K.written out.old) (K.written out.new) (bytes_of_taken with_nodes taken.now)) }
    ensures failed { IsErrOf result SinkFault.Failed → Rose (K.faults out.old) (K.faults out.new) }
{
    put_sections(alloc, taken, out)?;
    put_list(alloc, taken, with_nodes, out)
}

/// Writes the flat sections.
fn put_sections<K: Sink>(alloc: Global, taken: &TakenText, out: &mut K) -> Result<(), SinkFault>
    requires { CanBeAnswered taken.now }
    ensures ok { OnOk result (Gains (K.written out.old) (K.written out.new) (sections_of taken.now)) }
    ensures front { OnErr result (GainsFront (K.written out.old) (K.written out.new) (sections_of taken.now)) }
    ensures failed { IsErrOf result SinkFault.Failed → Rose (K.faults out.old) (K.faults out.new) }
    ensures not_failed { OnOk result (K.faults out.new ≡ K.faults out.old) }
{
    let shown = names_shown(alloc, taken)?;
    put_flat_by(alloc, &taken.spec, &shown, out)
}

/// The names of its signals, as its formulas are written.
fn names_shown(alloc: Global, taken: &TakenText) -> Result<Vec<Name>, AllocError>
    ensures names { IfOk result (λ shown. shown.items ≡ shown_names (shift_seen taken.now) (spec_seen taken.now.spec).expanded) }
    ensures many { IfOk result (λ shown. length shown.items ≡ length (all_names (spec_seen taken.now.spec).expanded)) }
{
    shown_names(alloc, &taken.spec, taken.shift())
}

/// Writes the list of formulas, where it is asked for.
fn put_list<K: Sink>(
    alloc: Global,
    taken: &TakenText,
    with_nodes: bool,
    out: &mut K,
) -> Result<(), SinkFault>
    ensures ok { OnOk result (Gains (K.written out.old) (K.written out.new) (list_of with_nodes taken.now)) }
    ensures front { OnErr result (GainsFront (K.written out.old) (K.written out.new) (list_of with_nodes taken.now)) }
    ensures failed { IsErrOf result SinkFault.Failed → Rose (K.faults out.old) (K.faults out.new) }
{
    if !with_nodes {
        return Ok(());
    }
    let names = all_names(alloc, &taken.spec)?;
    put_nodes(alloc, &taken.known.formulas, &names, out)
}
