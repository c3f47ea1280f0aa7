//! The replies to `expand --solve` and `lasso --solve`, which take a text as `solve` does.
ghost use Rattle.std.specs.Prelude.{◌≡◌, ◌≢◌, ℕ, List, Option as Maybe, IfOk};
ghost use Rattle.letters_and_lassos.specs.declared.kinds.Kind.{Kind as Given};
ghost use Rattle.program_replies.specs.Statuses.{status_number};
ghost use Rattle.program_words.specs.Settings.{expand_solve, lasso_solve};
ghost use Rattle.solve_ground.specs.SolveText.{IsSolveFault};
ghost use Rattle.solved_flat.specs.Lasso.{LassoSolveAnswers};
ghost use Rattle.solved_flat.specs.Taken.{CanBeAnswered, IsTaken};
ghost use Rattle.boundsyn_top.specs.Faults.{HasNone};
ghost use Rattle.boundsyn_top.specs.Output.{IsSolveExpansion};
ghost use Rattle.boundsyn_top.specs.Run.{IsOutputOf};
ghost use Rattle.boundsyn_top.specs.Steps.{step_of};
ghost use Rattle.boundsyn_top.specs.Takes.{TakesFile};
ghost use Rattle.boundsyn_top.specs.Unread.{RepliesByFile};

use crate::files::{Taken, cannot_read, take_text, take_whole};
use crate::output::{Output, whole_output};
use input_output::Shelf;
use letters_and_lassos::Kind;
use program_replies::Reply;
use solve_ground::laws::solve_texts_are_determined;
use solved_flat::{TakenText, Taking, lasso_solve_answer, taken_text};
use std::alloc::{AllocError, Global};

/// The flat form of a text as `solve` takes it, with the list of its formulas where that is asked for.
pub(crate) fn expand_solved<H: Shelf>(
    alloc: Global,
    shelf: &mut H,
    spec: &str,
    kind: Option<Kind>,
    nodes: bool,
) -> Result<Output, AllocError>
    ensures output { IfOk result (IsOutputOf (step_of H.files H.faults shelf.old shelf.new) (expand_solve spec.now kind nodes)) }
    ensures files { H.files shelf.new ≡ H.files shelf.old }
    ensures other_files { (name : List ℕ) → name ≢ spec.now → H.faults shelf.new name ≡ H.faults shelf.old name }
{
    match take_text(alloc, shelf, spec)? {
        Taken::Whole(text) => solved_output(alloc, &text, kind, nodes),
        Taken::Refused(reply) => Ok(Output::Whole(reply)),
    }
}

fn solved_output(
    alloc: Global,
    text: &[u8],
    kind: Option<Kind>,
    nodes: bool,
) -> Result<Output, AllocError>
    ensures { IfOk result (IsSolveExpansion text.now kind nodes) }
{
    match taken_text(alloc, text, kind)? {
        Taking::Taken(taken) => Ok(Output::Solved { text: taken, nodes }),
        Taking::Refused(reply) => Ok(Output::Whole(reply)),
    }
}

/// Whether a text as `solve` takes it holds on a lasso. The lasso's file is taken only where the text has no fault so.
pub(crate) fn tell_solved<H: Shelf>(
    alloc: Global,
    shelf: &mut H,
    spec: &str,
    word: &str,
    kind: Option<Kind>,
) -> Result<Output, AllocError>
    ensures output { IfOk result (IsOutputOf (step_of H.files H.faults shelf.old shelf.new) (lasso_solve spec.now word.now kind)) }
    ensures files { H.files shelf.new ≡ H.files shelf.old }
    ensures other_files { (name : List ℕ) → ¬ TakesFile (H.files shelf.old) (lasso_solve spec.now word.now kind) name → H.faults shelf.new name ≡ H.faults shelf.old name }
{
    match take_text(alloc, shelf, spec)? {
        Taken::Whole(text) => whole_output(tell_by(alloc, shelf, &text, kind, word)),
        Taken::Refused(reply) => Ok(Output::Whole(reply)),
    }
}

/// Takes the file of a lasso, and tells whether a text holds on it, unless the text has a fault as `solve` takes it.
fn tell_by<H: Shelf>(
    alloc: Global,
    shelf: &mut H,
    text: &[u8],
    kind: Option<Kind>,
    word: &str,
) -> Result<Reply, AllocError>
    ensures reply { IfOk result (λ r. RepliesByFile (step_of H.files H.faults shelf.old shelf.new) word.now
        (HasNone (IsSolveFault text.now kind)) (λ code place. ⊥) (λ lines. LassoSolveAnswers text.now kind lines r.bytes.items (status_number r.status)) r.bytes.items (status_number r.status)) }
    ensures files { H.files shelf.new ≡ H.files shelf.old }
    ensures other_files { (name : List ℕ) → (HasNone (IsSolveFault text.now kind) → name ≢ word.now) → H.faults shelf.new name ≡ H.faults shelf.old name }
{
    solve_texts_are_determined();
    match taken_text(alloc, text, kind)? {
        Taking::Taken(taken) => told(alloc, shelf, &taken, word),
        Taking::Refused(reply) => Ok(reply),
    }
}

/// Takes the file of a lasso, and tells whether a text that was taken so holds on it.
fn told<H: Shelf>(
    alloc: Global,
    shelf: &mut H,
    taken: &TakenText,
    word: &str,
) -> Result<Reply, AllocError>
    requires { CanBeAnswered taken.now }
    ensures reply { (text : List ℕ) (kind : Maybe Given) → IsTaken text kind taken.now → HasNone (IsSolveFault text kind)
        → IfOk result (λ r. RepliesByFile (step_of H.files H.faults shelf.old shelf.new) word.now
        (HasNone (IsSolveFault text kind)) (λ code place. ⊥) (λ lines. LassoSolveAnswers text kind lines r.bytes.items (status_number r.status)) r.bytes.items (status_number r.status)) }
    ensures files { H.files shelf.new ≡ H.files shelf.old }
    ensures other_files { (name : List ℕ) → name ≢ word.now → H.faults shelf.new name ≡ H.faults shelf.old name }
{
    match take_whole(alloc, shelf, word)? {
        Some(lines) => lasso_solve_answer(alloc, taken, &lines),
        None => cannot_read(alloc),
    }
}
