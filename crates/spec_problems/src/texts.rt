//! The problems of both sides of a text.

ghost use Rattle.std.specs.Prelude.{◌≡◌, ℕ, Err, IfOk, length};
ghost use Rattle.text_limits.specs.declared.TheConstants.{SMALL_LIMITS};
ghost use Rattle.ltl_formula.specs.Nodes.{IsNodeList, tree_at};
ghost use Rattle.spec_faults.specs.declared.code.SpecCode.{SpecCode as Code};
ghost use Rattle.spec_faults.specs.declared.code.SpecFault.TheVariants.{At};
ghost use Rattle.tlsf_expand.specs.FewSignals.{HasFewSignals};
ghost use Rattle.tlsf_expand.specs.FlatText.{spec_seen};
ghost use Rattle.flat_text.specs.FlatNames.{HasPlainNames};
ghost use Rattle.spec_problems.specs.OfFormula.{AcceptBySide, AreProblems};
ghost use Rattle.spec_problems.specs.OfText.{AreProblemsOf, IsFirstFault, SaysWhat};

use crate::sides::{Interface, SideProblems, problems_of};
use flat_text::expand_text;
use letters_and_lassos::Kind;
use machine_model::Counts;
use spec_faults::SpecFault;
use std::alloc::Global;
use text_limits::SMALL_LIMITS;
use tlsf_expand::Spec;

/// A text with the problems of both sides.
#[derive(Debug, Drop)]
pub struct TextProblems {
    /// The flat text. Its list has the normal forms of the whole too.
    pub spec: Spec,
    pub problems: SideProblems,
}

/// The problems of both sides of a text, whose numbers count so, or the text's first fault. A kind that is given
/// stands for those that the text names.
pub fn text_problems(
    alloc: Global,
    text: &[u8],
    kind: Option<Kind>,
    counts: Counts,
) -> Result<TextProblems, SpecFault>
    ensures problems { IfOk result (λ t. AreProblemsOf text.now kind counts (spec_seen t.spec) t.problems) }
    ensures meet { IfOk result (λ t. AreProblems t.problems) }
    ensures accept { IfOk result (λ t. AcceptBySide (tree_at t.spec.formulas t.spec.whole) t.problems) }
    ensures means { IfOk result (λ t. SaysWhat text.now t.spec.formulas t.spec.whole) }
    ensures few { IfOk result (λ t. HasFewSignals SMALL_LIMITS (length t.spec.inputs.items) (length t.spec.outputs.items) t.spec.formulas) }
    ensures names { IfOk result (λ t. HasPlainNames (spec_seen t.spec).expanded) }
    ensures list { IfOk result (λ t. IsNodeList t.spec.formulas) }
    ensures fault { (code : Code) (place : ℕ) → result ≡ Err (At code place) → IsFirstFault text.now kind code place }
{
    let mut spec = match expand_text(alloc, text, kind, SMALL_LIMITS) {
        Ok(spec) => spec,
        Err(fault) => return Err(fault),
    };
    let interface = Interface {
        inputs: spec.inputs.len() as u32,
        outputs: spec.outputs.len() as u32,
        kind: spec.kind,
        counts,
    };
    match problems_of(alloc, &mut spec.formulas, spec.whole, interface) {
        Ok(problems) => Ok(TextProblems { spec, problems }),
        Err(fault) => Err(fault),
    }
}
