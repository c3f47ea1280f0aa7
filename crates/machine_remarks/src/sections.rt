//! Sections of a text that are true on no word.

use crate::assumptions::normal_of;
use crate::formulas::promised;
use crate::meters::Meter;
use crate::runs::{all_runs, automaton_of};
use crate::silence::{Silence, unless_silent};
use ltl_formula::{FormulaId, Formulas};
use std::alloc::{AllocError, Global};
use text_limits::LARGE_LIMITS;
use time_limits::NoDeadline;
use tlsf_expand::{Spec, expand};
use tlsf_reader::read;

/// The most steps that are taken for the automaton of a formula: for each state as many as its edges were compared.
const MOST_STEPS: u64 = 1 << 25;

/// Which parts of a text hold on no word at all.
#[derive(Clone, Copy, Debug, Default, PartialEq, Eq)]
pub struct EmptySections {
    /// INITIALLY, REQUIRE and ASSUME together.
    pub assumptions: bool,
    /// PRESET, ASSERT and GUARANTEE together.
    pub guarantees: bool,
}

/// Which parts of a text hold on no word at all, as far as the automata of their formulas are small. Of a text that is refused nothing is said.
pub fn empty_sections(alloc: Global, text: &[u8]) -> Result<EmptySections, AllocError> {
    match unless_silent(spec_of(alloc, text))? {
        Some(spec) => empty_in(alloc, spec),
        None => Ok(EmptySections::default()),
    }
}

/// The flat text, for machines of its TARGET: which words there are doesn't go by their kind.
fn spec_of(alloc: Global, text: &[u8]) -> Result<Spec, Silence> {
    let tree = read(alloc, text)?;
    let kind = tree.info.target;
    Ok(expand(alloc, &tree, Some(kind), LARGE_LIMITS)?)
}

fn empty_in(alloc: Global, spec: Spec) -> Result<EmptySections, AllocError> {
    let Spec {
        formulas,
        sections,
        ..
    } = spec;
    let mut formulas = formulas;
    let assumed = promised(
        &mut formulas,
        &sections.initially,
        &sections.require,
        &sections.assume,
    );
    let assumptions = is_empty(alloc, &mut formulas, assumed)?;
    let owed = promised(
        &mut formulas,
        &sections.preset,
        &sections.assert,
        &sections.guarantee,
    );
    Ok(EmptySections {
        assumptions,
        guarantees: is_empty(alloc, &mut formulas, owed)?,
    })
}

/// Whether a formula, if there is one, is known to be true on no word.
fn is_empty(
    alloc: Global,
    formulas: &mut Formulas,
    whole: Result<FormulaId, Silence>,
) -> Result<bool, AllocError> {
    let Some(whole) = unless_silent(whole)? else {
        return Ok(false);
    };
    let Some(form) = unless_silent(normal_of(formulas, whole))? else {
        return Ok(false);
    };
    Ok(is_never_true(alloc, formulas, form)?.unwrap_or(false))
}

/// Whether a formula in normal form is true on no word at all: its automaton accepts nothing. None where that is too large to be looked at.
pub fn is_never_true(
    alloc: Global,
    formulas: &Formulas,
    form: FormulaId,
) -> Result<Option<bool>, AllocError> {
    unless_silent(never_true(alloc, formulas, form))
}

fn never_true(alloc: Global, formulas: &Formulas, form: FormulaId) -> Result<bool, Silence> {
    let mut meter = Meter::new(&NoDeadline, MOST_STEPS);
    let mut automaton = automaton_of(alloc, formulas, form)?;
    let places = all_runs(alloc, &mut automaton, &mut meter)?;
    Ok(!places.have_rejecting_ring(alloc)?)
}
