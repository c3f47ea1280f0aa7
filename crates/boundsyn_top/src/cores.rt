//! The reply to `core`.
ghost use Rattle.std.specs.Prelude.{◌≡◌, ◌≢◌, ℕ, List, IfOk};
ghost use Rattle.core_answer.specs.Core.{CoreAnswers};
ghost use Rattle.program_replies.specs.Statuses.{status_number};
ghost use Rattle.program_words.specs.Settings.{core};
ghost use Rattle.boundsyn_top.specs.Run.{IsOutputOf};
ghost use Rattle.boundsyn_top.specs.Steps.{step_of};

use crate::files::{Taken, take_text};
use crate::output::{Output, whole_output};
use core_answer::core_answer;
use input_output::{Gate, Shelf};
use letters_and_lassos::Kind;
use outcome_news::{Listener, News};
use program_replies::Reply;
use std::alloc::{AllocError, Global};
use std::sync::Wait;
use std::thread::Threads;
use synth_engine::Settings;

/// Searches for guarantees of a text that can't be met together.
pub(crate) fn find_core<R, H, G, L>(
    rt: &R,
    alloc: Global,
    shelf: &mut H,
    spec: &str,
    wanted: Settings,
    kind: Option<Kind>,
    gate: &G,
    listener: &mut L,
) -> Result<Output, AllocError>
where
    R: Threads + Wait + Sync,
    H: Shelf,
    G: Gate + Sync,
    L: Listener,
    ensures output { IfOk result (IsOutputOf (step_of H.files H.faults shelf.old shelf.new) (core spec.now wanted kind)) }
    ensures files { H.files shelf.new ≡ H.files shelf.old }
    ensures other_files { (name : List ℕ) → name ≢ spec.now → H.faults shelf.new name ≡ H.faults shelf.old name }
{
    match take_text(alloc, shelf, spec)? {
        Taken::Whole(text) => whole_output(shrunk(rt, alloc, &text, wanted, kind, gate, listener)),
        Taken::Refused(reply) => Ok(Output::Whole(reply)),
    }
}

/// Answers a text. The listener hears what is told of the answer.
fn shrunk<R, G, L>(
    rt: &R,
    alloc: Global,
    text: &[u8],
    wanted: Settings,
    kind: Option<Kind>,
    gate: &G,
    listener: &mut L,
) -> Result<Reply, AllocError>
where
    R: Threads + Wait + Sync,
    G: Gate + Sync,
    L: Listener,
    ensures { IfOk result (λ r. CoreAnswers text.now kind wanted r.bytes.items (status_number r.status)) }
{
    let shrunk = core_answer(rt, alloc, text, kind, wanted, gate)?;
    listener.hear(News::Answered(shrunk.told));
    Ok(shrunk.reply)
}
