//! The names of the signals of a flat text.

ghost use Rattle.std.specs.Prelude.{◌≡◌, ◌++◌, ◌∷◌, flat_map, IfOk};
ghost use Rattle.flat_lines.specs.FlatLines.{all_names, names_line};
ghost use Rattle.tlsf_expand.specs.FlatText.{spec_seen};

use names_and_numbers::Name;
use std::alloc::{AllocError, Global};
use tlsf_expand::Spec;

/// The names of all signals, by their numbers: those of the inputs, and then those of the outputs.
pub fn all_names(alloc: Global, spec: &Spec) -> Result<Vec<Name>, AllocError>
    ensures { IfOk result (λ names. names.items ≡ all_names (spec_seen spec.now).expanded) }
{
    let mut names = Vec::new(alloc);
    add_names(&mut names, &spec.inputs)?;
    add_names(&mut names, &spec.outputs)?;
    Ok(names)
}

fn add_names(names: &mut Vec<Name>, more: &[Name]) -> Result<(), AllocError>
    ensures { IfOk result (λ _. names.new.items ≡ names.old.items ++ more.now) }
{
    for name in more {
        names.push(name.clone()?)?;
    }
    Ok(())
}

/// Appends a word, and each name with a blank before it.
pub(crate) fn write_names(word: &[u8], names: &[Name], line: &mut Vec<u8>) -> Result<(), AllocError>
    ensures { IfOk result (λ _. line.new.items ≡ line.old.items ++ names_line word.now names.now) }
{
    line.extend_from_slice(word)?;
    for name in names {
        line.push(b' ')?;
        line.extend_from_slice(name.bytes())?;
    }
    Ok(())
}
