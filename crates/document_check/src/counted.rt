//! The problems of a text once more, with numbers that count by component.
ghost use Rattle.std.specs.Prelude.{◌≡◌, IfOk, IfSome};
ghost use Rattle.std.specs.Option.{option_copied};
ghost use Rattle.machine_model.specs.Problem.{IsProblem};
ghost use Rattle.document_check.specs.Shown.{AreCounted, AreFacts, facts_of, IsCounted, IsCountedIfAny};

use crate::facts::TextFacts;
use machine_model::Problem;
use std::alloc::{AllocError, Global};

/// The problems of both sides, for a document that counts by component.
#[derive(Drop)]
pub struct Counted {
    pub system: Problem,
    pub environment: Option<Problem>,
}

impl Counted {
    /// Those of a text. Their automata are shared, and the components of each are found where they aren't known.
    pub(crate) fn of(alloc: Global, facts: TextFacts<'_>) -> Result<Counted, AllocError>
        requires { AreFacts (facts_of facts) }
        ensures { IfOk result (AreCounted (facts_of facts.entry)) }
    {
        let system = recounted(alloc, facts.system)?;
        let environment = recounted_if_any(alloc, facts.environment)?;
        Ok(Counted {
            system,
            environment,
        })
    }

    /// What the text gives, with these problems.
    pub(crate) fn facts<'a>(&'a self, text: TextFacts<'a>) -> TextFacts<'a>
        ensures { facts_of result ≡ record (facts_of text.entry) { system = self.now.system; environment = self.now.environment } }
    {
        TextFacts {
            inputs: text.inputs,
            outputs: text.outputs,
            system: &self.system,
            environment: self.environment.as_ref(),
        }
    }
}

fn recounted_if_any(alloc: Global, problem: Option<&Problem>) -> Result<Option<Problem>, AllocError>
    requires { IfSome (option_copied problem) IsProblem }
    ensures { IfOk result (IsCountedIfAny (option_copied problem.entry)) }
{
    match problem {
        Some(problem) => Ok(Some(recounted(alloc, problem)?)),
        None => Ok(None),
    }
}

/// The same problem, whose numbers count by component.
fn recounted(alloc: Global, problem: &Problem) -> Result<Problem, AllocError>
    requires { IsProblem problem.now }
    ensures { IfOk result (IsCounted problem.now) }
{
    let same = problem.sized(problem.size)?;
    let recounted = same.by_component(alloc)?;
    Ok(recounted)
}
