//! The reply to `solve`.
ghost use Rattle.std.specs.Prelude.{◌≡◌, ◌≢◌, ℕ, List, IfOk};
ghost use Rattle.program_replies.specs.Statuses.{status_number};
ghost use Rattle.program_words.specs.Settings.{solve};
ghost use Rattle.solve_answer.specs.Answer.{SolveAnswers};
ghost use Rattle.solve_answer.specs.Parts.{limits_of};
ghost use Rattle.boundsyn_top.specs.Run.{IsOutputOf};
ghost use Rattle.boundsyn_top.specs.Solving.{refutations_by};
ghost use Rattle.boundsyn_top.specs.Steps.{step_of};

use crate::files::{Taken, take_text};
use crate::output::{Output, whole_output};
use input_output::{Gate, Shelf};
use letters_and_lassos::Kind;
use outcome_news::{Listener, News};
use program_replies::Reply;
use solve_answer::{GAME_BUDGET, Refuting, solve};
use std::alloc::{AllocError, Global};
use std::sync::Wait;
use std::thread::Threads;
use time_limits::Stopwatch;

/// Finds a controller of a text, or a counter-strategy, refutes smaller ones, and prints what its test accepts.
pub(crate) fn solve_spec<R, H, G, S, L>(
    rt: &R,
    alloc: Global,
    shelf: &mut H,
    spec: &str,
    kind: Option<Kind>,
    refuting: Refuting,
    gate: &G,
    stopwatch: &S,
    listener: &mut L,
) -> Result<Output, AllocError>
where
    R: Threads + Wait + Sync,
    H: Shelf,
    G: Gate + Sync,
    S: Stopwatch + Sync,
    L: Listener,
    ensures output { IfOk result (IsOutputOf (step_of H.files H.faults shelf.old shelf.new) (solve spec.now kind (refutations_by refuting))) }
    ensures files { H.files shelf.new ≡ H.files shelf.old }
    ensures other_files { (name : List ℕ) → name ≢ spec.now → H.faults shelf.new name ≡ H.faults shelf.old name }
{
    match take_text(alloc, shelf, spec)? {
        Taken::Whole(text) => whole_output(solved(
            rt, alloc, &text, kind, refuting, gate, stopwatch, listener,
        )),
        Taken::Refused(reply) => Ok(Output::Whole(reply)),
    }
}

/// Answers a text. The listener hears what is told beside the answer, too.
fn solved<R, G, S, L>(
    rt: &R,
    alloc: Global,
    text: &[u8],
    kind: Option<Kind>,
    refuting: Refuting,
    gate: &G,
    stopwatch: &S,
    listener: &mut L,
) -> Result<Reply, AllocError>
where
    R: Threads + Wait + Sync,
    G: Gate + Sync,
    S: Stopwatch + Sync,
    L: Listener,
    ensures { IfOk result (λ r. SolveAnswers text.now kind (limits_of refuting) r.bytes.items (status_number r.status)) }
{
    let solved = solve(
        rt,
        alloc,
        text,
        kind,
        GAME_BUDGET,
        refuting,
        gate,
        stopwatch,
        listener,
    )?;
    listener.hear(News::Answered(solved.told));
    Ok(solved.reply)
}
