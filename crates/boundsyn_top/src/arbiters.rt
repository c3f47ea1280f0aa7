//! The replies to `gen` and `bench`, which read no file.
ghost use Rattle.std.specs.Prelude.{◌≤◌, IfOk};
ghost use Rattle.program_words.specs.Settings.{bench, gen};
ghost use Rattle.boundsyn_top.specs.Run.{IsOutputOf};
ghost use Rattle.boundsyn_top.specs.Steps.{ShelfStep};

use crate::output::{Output, whole_output};
use arbiter_text::write_arbiter;
use bench_answer::bench_answer;
use input_output::Gate;
use program_replies::{Reply, Status};
use std::alloc::{AllocError, Global};
use std::sync::Wait;
use std::thread::Threads;

/// The text of an arbiter.
pub fn generate(alloc: Global, clients: u32) -> Result<Output, AllocError>
    ensures { IfOk result (λ o. (step : ShelfStep) → IsOutputOf step (gen clients) o) }
{
    let mut bytes = Vec::new(alloc);
    write_arbiter(clients, &mut bytes)?;
    Ok(Output::Whole(Reply {
        bytes,
        status: Status::Done,
    }))
}

/// Searches for a machine of an arbiter's text, and tells what was found.
pub(crate) fn search_arbiter<R, G>(
    rt: &R,
    alloc: Global,
    clients: u32,
    workers: u32,
    gate: &G,
) -> Result<Output, AllocError>
where
    R: Threads + Wait + Sync,
    G: Gate + Sync,
    requires some_client { 1 ≤ clients }
    requires most_clients { clients ≤ 4 }
    requires workers { workers ≤ 8 }
    ensures { IfOk result (λ o. (step : ShelfStep) → IsOutputOf step (bench clients workers) o) }
{
    whole_output(bench_answer(rt, alloc, clients, workers, gate))
}
