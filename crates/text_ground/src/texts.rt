//! A text that is read before anything else is taken or searched.
ghost use Rattle.std.specs.Prelude.{◌≡◌, IfOk, length};
ghost use Rattle.text_limits.specs.declared.TheConstants.{SMALL_LIMITS};
ghost use Rattle.machine_model.specs.Automaton.{IsAutomaton};
ghost use Rattle.machine_model.specs.Problem.{automaton_of};
ghost use Rattle.tlsf_expand.specs.FewSignals.{HasFewSignals};
ghost use Rattle.tlsf_expand.specs.FlatText.{spec_seen};
ghost use Rattle.flat_text.specs.FlatNames.{HasPlainNames};
ghost use Rattle.spec_problems.specs.OfFormula.{AreProblems};
ghost use Rattle.document_check.specs.Shown.{facts_of as facts_seen};
ghost use Rattle.text_ground.specs.Ground.{given_by};
ghost use Rattle.text_ground.specs.Problems.{HaveAutomata};
ghost use Rattle.text_ground.specs.Texts.{AreOfText, IfProblems};

use document_check::TextFacts;
use letters_and_lassos::Kind;
use machine_model::{Counts, Problem};
use program_replies::{Reply, refusal};
use spec_problems::{SideProblems, TextProblems, text_problems};
use std::alloc::{AllocError, Global};

/// What is known of a text before anything else is taken or searched.
#[derive(Drop)]
pub enum Problems {
    /// The flat text, with the problems of its two sides.
    Of(TextProblems),
    /// The reply to the text's first fault, whatever else was asked.
    Refused(Reply),
}

/// The problems of a text, whose numbers count so, or the line of its first fault with status 1. A kind that is given stands for those that
/// the text names.
pub fn problems_or_refusal(
    alloc: Global,
    text: &[u8],
    kind: Option<Kind>,
    counts: Counts,
) -> Result<Problems, AllocError>
    ensures text { IfOk result (AreOfText counts text.now kind) }
    ensures meet { IfOk result (IfProblems (λ t. AreProblems t.problems)) }
    ensures few { IfOk result (IfProblems (λ t. HasFewSignals SMALL_LIMITS (length t.spec.inputs.items) (length t.spec.outputs.items) t.spec.formulas)) }
    ensures names { IfOk result (IfProblems (λ t. HasPlainNames (spec_seen t.spec).expanded)) }
{
    match text_problems(alloc, text, kind, counts) {
        Ok(problems) => Ok(Problems::Of(problems)),
        Err(fault) => Ok(Problems::Refused(refusal(alloc, fault)?)),
    }
}

/// What a text gives to the tests of documents and of circuits.
pub fn facts_of(text: &TextProblems) -> TextFacts<'_>
    ensures { facts_seen result ≡ given_by (spec_seen text.now.spec) text.now.problems }
{
    TextFacts {
        inputs: &text.spec.inputs,
        outputs: &text.spec.outputs,
        system: &text.problems.system,
        environment: text.problems.environment.as_ref(),
    }
}

/// What the types of the automata keep.
pub fn automata_are_kept(problems: &SideProblems)
    ensures { HaveAutomata problems.now }
{
    automaton_is_kept(&problems.system);
    if let Some(environment) = &problems.environment {
        automaton_is_kept(environment);
    }
}

fn automaton_is_kept(problem: &Problem)
    ensures { IsAutomaton (automaton_of problem.now) }
{
    let _states = problem.automaton.states();
}
