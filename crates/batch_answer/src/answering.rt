//! The answer to many texts.
ghost use Rattle.std.specs.Prelude.{◌≡◌, ◌^◌, ◌<◌, ◌≤◌, ℕ, List, IfOk, length};
ghost use Rattle.batch_answer.specs.Batch.{BatchAnswers};
ghost use Rattle.batch_answer.specs.Taken.{AreTexts};

use crate::file_name::FileName;
use crate::parts::batch_text;
use crate::texts::{Answering, TakenText};
use batch_run::run_all;
use input_output::Gate;
use outcome_news::{Listener, hear_all};
use program_replies::{Reply, Status};
use std::alloc::{AllocError, Global};
use std::sync::Wait;
use std::thread::Threads;
use synth_engine::Settings;

/// The answers to texts of these names, in their order: for each the lines `text NAME`, `status S` and `lines L`, and the L lines that
/// answer it alone; last the line `end batch`. So many workers answer them as the settings say. Each search is made by one of them, with
/// the settings' limits. What is told of each answer the listener hears in the order of the texts, once all are made.
///
/// It waits for the workers, each of which passes the gate as `run_all` of batch_run says.
pub fn batch_answer<R: Threads + Wait + Sync, G: Gate + Sync, L: Listener>(
    rt: &R,
    alloc: Global,
    names: &[FileName],
    texts: &[TakenText],
    settings: Settings,
    gate: &G,
    listener: &mut L,
) -> Result<Reply, AllocError>
    requires one_each { length names.now ≡ length texts.now }
    requires few { length texts.now < 2 ^ 32 }
    requires workers { 1 ≤ settings.workers }
    ensures done { IfOk result (λ r. r.status ≡ Status.Done) }
    ensures answers { (files : List (List ℕ)) → AreTexts texts.now files → IfOk result (λ r. BatchAnswers names.now files settings r.bytes.items) }
{
    let job = Answering::new(alloc, settings);
    let replies = run_all(rt, alloc, &job, texts, settings.workers(), gate)?;
    hear_all(listener, &replies);
    Ok(Reply {
        bytes: batch_text(alloc, names, &replies)?,
        status: Status::Done,
    })
}
