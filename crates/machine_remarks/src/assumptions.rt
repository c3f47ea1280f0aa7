//! The assumptions of a text, as `solve` takes the text.

use crate::formulas::{MOST_NODES, promised};
use crate::silence::Silence;
use circuit_steps::few;
use kind_conversion::{ConvertedList, Shift, converted, shift_of};
use letters_and_lassos::Kind;
use ltl_formula::{FormulaId, Formulas};
use ltl_normal::normal;
use outcome_news::Owed;
use std::alloc::Global;
use text_limits::LARGE_LIMITS;
use tlsf_expand::{Spec, expand};
use tlsf_reader::read;
use tlsf_syntax::{Info, SpecTree};

/// What a text assumes, in normal form, and what is owed where that never holds.
#[derive(Drop)]
pub(crate) struct Assumptions {
    pub(crate) inputs: usize,
    pub(crate) outputs: usize,
    pub(crate) formulas: Formulas,
    pub(crate) form: FormulaId,
    pub(crate) else_owed: Owed,
}

/// What a text assumes of the words of a machine. None where it assumes nothing.
pub(crate) fn assumptions_of(
    alloc: Global,
    text: &[u8],
    given: Option<Kind>,
) -> Result<Option<Assumptions>, Silence> {
    let tree = read(alloc, text)?;
    let kind = given.unwrap_or(tree.info.target);
    let spec = expand(alloc, &tree, Some(kind), LARGE_LIMITS)?;
    let sections = &spec.sections;
    if sections.initially.is_empty() && sections.require.is_empty() && sections.assume.is_empty() {
        return Ok(None);
    }
    Ok(Some(in_normal_form(alloc, spec, taken_shift(given, &tree.info))?))
}

/// Which signals the text speaks of one letter later.
fn taken_shift(given: Option<Kind>, info: &Info) -> Option<Shift> {
    match given {
        Some(_) => None,
        None => shift_of(info.semantics, info.target),
    }
}

fn in_normal_form(alloc: Global, spec: Spec, shift: Option<Shift>) -> Result<Assumptions, Silence> {
    let Spec {
        inputs,
        outputs,
        strict,
        formulas,
        sections,
        ..
    } = spec;
    let mut formulas = formulas;
    let whole = promised(
        &mut formulas,
        &sections.initially,
        &sections.require,
        &sections.assume,
    )?;
    let list = taken_list(alloc, formulas, whole, shift, few(inputs.len()))?;
    let mut formulas = list.formulas;
    let form = normal_of(&mut formulas, list.whole)?;
    Ok(Assumptions {
        inputs: inputs.len(),
        outputs: outputs.len(),
        formulas,
        form,
        else_owed: Owed::OnlyInitially {
            preset: !sections.preset.is_empty(),
            assert: strict && !sections.assert.is_empty(),
        },
    })
}

/// The list as it is written, or made anew with the shifted forms.
fn taken_list(
    alloc: Global,
    formulas: Formulas,
    whole: FormulaId,
    shift: Option<Shift>,
    inputs: u32,
) -> Result<ConvertedList, Silence> {
    match shift {
        Some(shift) if (whole.0 as usize) < formulas.len() => {
            Ok(converted(alloc, &formulas, MOST_NODES, whole, shift, inputs)?)
        },
        _ => Ok(ConvertedList { formulas, whole }),
    }
}

/// The normal form of a formula.
pub(crate) fn normal_of(formulas: &mut Formulas, f: FormulaId) -> Result<FormulaId, Silence> {
    if f.0 as usize >= formulas.len() {
        return Err(Silence::Unknown);
    }
    Ok(normal(formulas, MOST_NODES, f)?)
}
