//! The names that signals have in formulas as they are taken.
ghost use Rattle.std.specs.Prelude.{◌≡◌, ◌++◌, IfOk, map};
ghost use Rattle.tlsf_expand.specs.FlatText.{spec_seen};
ghost use Rattle.solved_flat.specs.Shown.{shown_name, shown_names, takes_inputs, takes_outputs};

use kind_conversion::Shift;
use names_and_numbers::Name;
use std::alloc::{AllocError, Global};
use tlsf_expand::Spec;

/// The names of all signals, with X before those that are shifted.
pub(crate) fn shown_names(
    alloc: Global,
    spec: &Spec,
    shift: Option<Shift>,
) -> Result<Vec<Name>, AllocError>
    ensures { IfOk result (λ shown. shown.items ≡ shown_names shift (spec_seen spec.now).expanded) }
{
    let mut shown = Vec::new(alloc);
    add_shown(alloc, &mut shown, &spec.inputs, takes_inputs(shift))?;
    add_shown(alloc, &mut shown, &spec.outputs, takes_outputs(shift))?;
    Ok(shown)
}

fn takes_inputs(shift: Option<Shift>) -> bool
    ensures { result ≡ takes_inputs shift }
{
    match shift {
        Some(Shift::Inputs) => true,
        Some(Shift::Outputs) | None => false,
    }
}

fn takes_outputs(shift: Option<Shift>) -> bool
    ensures { result ≡ takes_outputs shift }
{
    match shift {
        Some(Shift::Outputs) => true,
        Some(Shift::Inputs) | None => false,
    }
}

fn add_shown(
    alloc: Global,
    shown: &mut Vec<Name>,
    names: &[Name],
    is_shifted: bool,
) -> Result<(), AllocError>
    ensures { IfOk result (λ _. shown.new.items ≡ shown.old.items ++ map (shown_name is_shifted) names.now) }
{
    for name in names {
        shown.push(shown_name(alloc, name, is_shifted)?)?;
    }
    Ok(())
}

fn shown_name(alloc: Global, name: &Name, is_shifted: bool) -> Result<Name, AllocError>
    ensures { IfOk result (λ shown. shown ≡ shown_name is_shifted name.now) }
{
    if !is_shifted {
        return name.clone();
    }
    let mut text = Vec::from_slice(alloc, b"(X ")?;
    text.extend_from_slice(name.bytes())?;
    text.push(b')')?;
    Name::new(alloc, &text)
}
