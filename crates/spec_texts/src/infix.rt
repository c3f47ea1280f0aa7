//! The formula of a text in infix LTL.

ghost use Rattle.std.specs.Prelude.{◌≡◌, IfOk, length};
ghost use Rattle.flat_lines.specs.FlatLines.{CanBeWritten};
ghost use Rattle.ltl_formula.specs.ListSignals.{HasSignalsBelow};
ghost use Rattle.ltl_formula.specs.Nodes.{IsNodeIn};
ghost use Rattle.tlsf_expand.specs.FlatText.{spec_seen};

use crate::beside::Taken;
use crate::plain_names::{LTL_WORDS, plain_names};
use flat_lines::all_names;
use letters_and_lassos::Kind;
use ltl_formula::laws::signals_of_lists_are_kept;
use ltl_formula::write_formula;
use machine_table::Text;
use names_and_numbers::Name;
use std::alloc::{AllocError, Global};
use tlsf_expand::Spec;

const MEALY: &str = "# Mealy: outputs may be of the inputs of the same step\n";

const MOORE: &str = "# Moore: outputs may not be of the inputs of the same step\n";

/// Puts lines that begin with `#`, and the formula of the whole on the last line. The first ones name the kind, the replaced names and
/// the lists of the signals.
pub(crate) fn put_ltl(alloc: Global, taken: &Taken, out: &mut Text) -> Result<(), AllocError>
    requires writable { CanBeWritten (spec_seen taken.now.spec) }
    requires stands { IsNodeIn taken.now.spec.formulas taken.now.spec.whole }
{
    let spec = &taken.spec;
    let names = all_names(alloc, spec)?;
    let plain = plain_names(alloc, &names, &LTL_WORDS)?;
    out.put(if spec.kind == Kind::Mealy {
        MEALY
    } else {
        MOORE
    });
    put_replaced(&names, &plain, out);
    let inputs = spec.inputs.len();
    put_list("# --ins=", &plain, 0, inputs, out);
    put_list("# --outs=", &plain, inputs, usize::MAX, out);
    put_whole(alloc, taken, &plain, out)?;
    out.put("\n");
    Ok(())
}

fn put_replaced(names: &[Name], plain: &[Name], out: &mut Text) {
    for (name, other) in names.iter().zip(plain) {
        if name.bytes() != other.bytes() {
            out.put("# ");
            out.put_bytes(other.bytes());
            out.put(" stands for ");
            out.put_bytes(name.bytes());
            out.put("\n");
        }
    }
}

/// The names from a place on, up to another, with commas between them.
fn put_list(word: &str, names: &[Name], from: usize, to: usize, out: &mut Text) {
    out.put(word);
    for (place, name) in names.iter().enumerate() {
        if from <= place && place < to {
            out.put(if place > from { "," } else { "" });
            out.put_bytes(name.bytes());
        }
    }
    out.put("\n");
}

/// Puts the formula of the whole, with these names for its signals, and X before those of the next step.
pub(crate) fn put_whole(
    alloc: Global,
    taken: &Taken,
    names: &[Name],
    out: &mut Text,
) -> Result<(), AllocError>
    requires stands { IsNodeIn taken.now.spec.formulas taken.now.spec.whole }
    requires named { HasSignalsBelow (length names.now) taken.now.spec.formulas }
{
    let atoms = atoms_of(alloc, taken, names)?;
    put_over(alloc, &taken.spec, &atoms, out)
}

/// What stands for each signal: its name, or X and the name.
fn atoms_of(alloc: Global, taken: &Taken, names: &[Name]) -> Result<Vec<Name>, AllocError>
    ensures { IfOk result (λ made. length made.items ≡ length names.now) }
{
    let mut made: Vec<Name> = Vec::new(alloc);
    let mut number = 0u32;
    for name in names {
        let atom = atom_of(alloc, name, taken.is_shifted(number))?;
        made.push(atom)?;
        number = number.saturating_add(1);
    }
    Ok(made)
}

/// A name, or X and the name.
pub(crate) fn atom_of(alloc: Global, name: &Name, is_shifted: bool) -> Result<Name, AllocError> {
    if !is_shifted {
        return name.clone();
    }
    let mut atom = Vec::new(alloc);
    atom.extend_from_slice(b"(X ")?;
    atom.extend_from_slice(name.bytes())?;
    atom.push(b')')?;
    Name::new(alloc, &atom)
}

fn put_over(alloc: Global, spec: &Spec, names: &[Name], out: &mut Text) -> Result<(), AllocError>
    requires stands { IsNodeIn spec.now.formulas spec.now.whole }
    requires named { HasSignalsBelow (length names.now) spec.now.formulas }
{
    let _nodes = spec.formulas.len();
    signals_of_lists_are_kept();
    let mut formula = Vec::new(alloc);
    write_formula(&spec.formulas, spec.whole, names, &mut formula)?;
    out.put_bytes(&formula);
    Ok(())
}
