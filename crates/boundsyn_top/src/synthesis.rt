//! The reply to `synth`.
ghost use Rattle.std.specs.Prelude.{◌≡◌, ◌≢◌, ℕ, List, IfOk};
ghost use Rattle.program_replies.specs.Statuses.{status_number};
ghost use Rattle.program_words.specs.Settings.{synth};
ghost use Rattle.synth_answer.specs.Answer.{Answers};
ghost use Rattle.boundsyn_top.specs.Run.{IsOutputOf};
ghost use Rattle.boundsyn_top.specs.Steps.{step_of};

use crate::files::{Taken, take_text};
use crate::output::{Output, whole_output};
use input_output::{Gate, Shelf};
use letters_and_lassos::Kind;
use outcome_news::{Listener, News};
use program_replies::Reply;
use std::alloc::{AllocError, Global};
use std::sync::Wait;
use std::thread::Threads;
use synth_answer::answer;
use synth_engine::Settings;

/// Searches for a machine of a text, and prints what it finds.
pub(crate) fn synthesize<R, H, G, L>(
    rt: &R,
    alloc: Global,
    shelf: &mut H,
    spec: &str,
    wanted: Settings,
    kind: Option<Kind>,
    gate: &G,
    listener: &mut L,
) -> Result<Output, AllocError>
where
    R: Threads + Wait + Sync,
    H: Shelf,
    G: Gate + Sync,
    L: Listener,
    ensures output { IfOk result (IsOutputOf (step_of H.files H.faults shelf.old shelf.new) (synth spec.now wanted kind)) }
    ensures files { H.files shelf.new ≡ H.files shelf.old }
    ensures other_files { (name : List ℕ) → name ≢ spec.now → H.faults shelf.new name ≡ H.faults shelf.old name }
{
    match take_text(alloc, shelf, spec)? {
        Taken::Whole(text) => whole_output(searched(
            rt, alloc, &text, wanted, kind, gate, listener,
        )),
        Taken::Refused(reply) => Ok(Output::Whole(reply)),
    }
}

/// Answers a text. The listener hears what is told of the answer.
fn searched<R, G, L>(
    rt: &R,
    alloc: Global,
    text: &[u8],
    wanted: Settings,
    kind: Option<Kind>,
    gate: &G,
    listener: &mut L,
) -> Result<Reply, AllocError>
where
    R: Threads + Wait + Sync,
    G: Gate + Sync,
    L: Listener,
    ensures { IfOk result (λ r. Answers text.now kind wanted r.bytes.items (status_number r.status)) }
{
    let searched = answer(rt, alloc, text, kind, wanted, gate)?;
    listener.hear(News::Answered(searched.told));
    Ok(searched.reply)
}
