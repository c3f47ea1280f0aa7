//! A text from its bytes.
ghost use Rattle.std.specs.Prelude.{◌≡◌, ◌≤◌, ℕ, Err, IfOk, None, Some, length};
ghost use Rattle.ltl_formula.specs.Nodes.{IsNodeIn, tree_at};
ghost use Rattle.spec_faults.specs.declared.code.SpecCode.{SpecCode as Code};
ghost use Rattle.spec_faults.specs.declared.code.SpecFault.TheVariants.{At};
ghost use Rattle.text_limits.specs.declared.TheConstants.{WIDEST_LIMITS};
ghost use Rattle.solve_ground.specs.Forms.{forms_of as forms_in_list, list_taken};
ghost use Rattle.solve_ground.specs.Parts.{AreFormsOf, HasNoForms, IsFull, IsWithForms, SaysTaken, fault_of, forms_made};
ghost use Rattle.solve_ground.specs.SolveText.{IsFaultWithin, IsSolveFault, IsSolveText, IsTextWithin};

use crate::forms::{Forms, forms_of};
use crate::taken::{semantics_of, taken_kind, taken_shift};
use kind_conversion::{ConvertedList, Shift, converted};
use letters_and_lassos::Kind;
use ltl_formula::{AddFault, FormulaId, Formulas};
use names_and_numbers::Name;
use spec_faults::{SpecCode, SpecFault, fault};
use std::alloc::Global;
use text_limits::{LARGE_LIMITS, Limits};
use tlsf_expand::{Spec, expand};
use tlsf_reader::read;

/// What is known of a text.
#[derive(Drop)]
pub struct SolveText {
    /// The names of the inputs, whose signals come first, and of the outputs.
    pub inputs: Vec<Name>,
    pub outputs: Vec<Name>,
    /// The kind of the system's machines. Those of the environment are of the other one.
    pub kind: Kind,
    /// The text's SEMANTICS, where it is another kind and the text was converted.
    pub semantics: Option<Kind>,
    /// The list in which both forms of the whole stand.
    pub formulas: Formulas,
    /// What the system keeps from being true: the whole's negation, in normal form.
    pub negated: FormulaId,
    /// What the environment keeps from being true: the whole, in normal form.
    pub normal: FormulaId,
}

/// What a text wants as `solve` takes it, or its first fault. A given kind stands for SEMANTICS and TARGET both.
pub fn solve_text(alloc: Global, text: &[u8], given: Option<Kind>) -> Result<SolveText, SpecFault>
    ensures text { IfOk result (IsSolveText text.now given) }
    ensures fault { (code : Code) (place : ℕ) → result ≡ Err (At code place) → IsSolveFault text.now given code place }
{
    text_within(alloc, LARGE_LIMITS, text, given)
}

/// The same within other limits, of at most 64 signals of each kind.
pub fn text_within(
    alloc: Global,
    limits: Limits,
    text: &[u8],
    given: Option<Kind>,
) -> Result<SolveText, SpecFault>
    requires { limits.signals ≤ WIDEST_LIMITS.signals }
    ensures text { IfOk result (IsTextWithin limits text.now given) }
    ensures fault { (code : Code) (place : ℕ) → result ≡ Err (At code place) → IsFaultWithin limits text.now given code place }
{
    let tree = read(alloc, text)?;
    let kind = taken_kind(given, &tree);
    let spec = expand(alloc, &tree, Some(kind), limits)?;
    let shift = taken_shift(given, &tree);
    let semantics = semantics_of(given, &tree);
    with_forms(alloc, limits.nodes, spec, shift, semantics)
}

/// The text with both forms of its whole.
fn with_forms(
    alloc: Global,
    most: usize,
    spec: Spec,
    shift: Option<Shift>,
    semantics: Option<Kind>,
) -> Result<SolveText, SpecFault>
    requires stands { IsNodeIn spec.formulas spec.whole }
    requires few { length spec.inputs.items ≤ WIDEST_LIMITS.signals }
    ensures made { IfOk result (IsWithForms most spec shift semantics) }
    ensures none { (code : Code) (place : ℕ) → result ≡ Err (At code place) → HasNoForms most spec shift code place }
{
    let Spec {
        inputs,
        outputs,
        kind,
        formulas,
        whole,
        ..
    } = spec;
    let list = taken_list(alloc, most, formulas, whole, shift, inputs.len())?;
    let forms = forms_or_fault(list, most)?;
    Ok(SolveText {
        inputs,
        outputs,
        kind,
        semantics,
        formulas: forms.formulas,
        negated: forms.negated,
        normal: forms.normal,
    })
}

/// The list and the whole that are taken: as they are written, or made anew with the shifted forms.
fn taken_list(
    alloc: Global,
    most: usize,
    formulas: Formulas,
    whole: FormulaId,
    shift: Option<Shift>,
    inputs: usize,
) -> Result<ConvertedList, SpecFault>
    requires stands { IsNodeIn formulas whole }
    requires few { inputs ≤ WIDEST_LIMITS.signals }
    ensures taken { IfOk result (λ c. list_taken most shift inputs formulas whole ≡ Some c) }
    ensures says { IfOk result (SaysTaken shift inputs (tree_at formulas whole)) }
    ensures none { (code : Code) (place : ℕ) → result ≡ Err (At code place) → IsFull code place (list_taken most shift inputs formulas whole) }
{
    match shift {
        None => Ok(ConvertedList { formulas, whole }),
        Some(shift) => converted_list(alloc, most, &formulas, whole, shift, inputs as u32),
    }
}

/// The list that is made anew.
fn converted_list(
    alloc: Global,
    most: usize,
    formulas: &Formulas,
    whole: FormulaId,
    shift: Shift,
    inputs: u32,
) -> Result<ConvertedList, SpecFault>
    requires { IsNodeIn formulas.now whole }
    ensures taken { IfOk result (λ c. list_taken most (Some shift) inputs formulas.now whole ≡ Some c) }
    ensures says { IfOk result (SaysTaken (Some shift) inputs (tree_at formulas.now whole)) }
    ensures none { (code : Code) (place : ℕ) → result ≡ Err (At code place) → IsFull code place (list_taken most (Some shift) inputs formulas.now whole) }
{
    match converted(alloc, formulas, most, whole, shift, inputs) {
        Ok(list) => Ok(list),
        Err(refused) => Err(refusal_of(refused)),
    }
}

/// A list that has no room is told at byte 0.
fn refusal_of(refused: AddFault) -> SpecFault
    ensures { result ≡ fault_of refused }
{
    match refused {
        AddFault::TooManyNodes => fault(SpecCode::TooManyNodes, 0),
        AddFault::NoMemory => SpecFault::NoMemory,
    }
}

/// Both forms of a list's whole.
fn forms_or_fault(list: ConvertedList, most: usize) -> Result<Forms, SpecFault>
    requires { IsNodeIn list.formulas list.whole }
    ensures made { IfOk result (λ f. forms_in_list most list.formulas list.whole ≡ Some (forms_made f)) }
    ensures say { IfOk result (λ f. AreFormsOf (tree_at list.formulas list.whole) (forms_made f)) }
    ensures none { (code : Code) (place : ℕ) → result ≡ Err (At code place) → IsFull code place (forms_in_list most list.formulas list.whole) }
{
    match forms_of(list.formulas, most, list.whole) {
        Ok(forms) => Ok(forms),
        Err(refused) => Err(refusal_of(refused)),
    }
}
