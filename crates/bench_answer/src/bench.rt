//! The search on the text of an arbiter, and its three lines.
ghost use Rattle.std.specs.Prelude.{◌≡◌, ◌≤◌, IfOk};
ghost use Rattle.program_replies.specs.Statuses.{status_number};
ghost use Rattle.bench_answer.specs.Bench.{BenchAnswer, least_word, lines_of, states_of, word_of};

use arbiter_text::write_arbiter;
use document_text::Verdict;
use input_output::Gate;
use letters_and_lassos::Side;
use machine_model::Counts;
use names_and_numbers::push_number;
use program_replies::Reply;
use std::alloc::{AllocError, Global};
use std::sync::Wait;
use std::thread::Threads;
use synth_answer::told_answer;
use synth_engine::Settings;

/// The answer to the text of an arbiter of that many clients, searched up to 4 states without a limit on entries: the lines
/// `clients K`, `verdict V` and `states N` with status 10, 20 or 30. N is 0 where no machine of an allowed size exists.
///
/// It waits for the workers of the search, each of which passes the gate at three moments of its turns.
pub fn bench_answer<R: Threads + Wait + Sync, G: Gate + Sync>(
    rt: &R,
    alloc: Global,
    clients: u32,
    workers: u32,
    gate: &G,
) -> Result<Reply, AllocError>
    requires some_client { 1 ≤ clients }
    requires most_clients { clients ≤ 4 }
    requires workers { workers ≤ 8 }
    ensures { IfOk result (λ r. BenchAnswer clients workers r.bytes.items (status_number r.status)) }
{
    let mut text = Vec::new(alloc);
    write_arbiter(clients, &mut text)?;
    let settings = Settings::new(4, None, workers, Counts::Whole);
    let told = told_answer(rt, alloc, &text, None, settings, gate)?;
    // The text of an arbiter has no fault, which no law says yet.
    let Some(verdict) = told.verdict else {
        return Err(AllocError);
    };
    Ok(Reply {
        bytes: lines(alloc, clients, verdict)?,
        status: told.reply.status,
    })
}

/// The three lines.
fn lines(alloc: Global, clients: u32, verdict: Verdict) -> Result<Vec<u8>, AllocError>
    ensures { IfOk result (λ bytes. bytes.items ≡ lines_of clients verdict) }
{
    let mut bytes = Vec::new(alloc);
    bytes.extend_from_slice(b"clients ")?;
    push_number(&mut bytes, u64::from(clients))?;
    bytes.extend_from_slice(b"\nverdict ")?;
    bytes.extend_from_slice(word(verdict))?;
    bytes.extend_from_slice(b"\nstates ")?;
    push_number(&mut bytes, u64::from(states(verdict)))?;
    bytes.extend_from_slice(b"\n")?;
    Ok(bytes)
}

fn word(verdict: Verdict) -> &'static [u8]
    ensures { result.now ≡ word_of verdict }
{
    match verdict {
        Verdict::Machine {
            side,
            least: true,
            ..
        } => least_word(side),
        Verdict::Machine { .. } => b"unknown",
        Verdict::Unknown(_) => b"unknown",
    }
}

fn least_word(side: Side) -> &'static [u8]
    ensures { result.now ≡ least_word side }
{
    match side {
        Side::System => b"realizable",
        Side::Environment => b"unrealizable",
    }
}

fn states(verdict: Verdict) -> u32
    ensures { result ≡ states_of verdict }
{
    match verdict {
        Verdict::Machine {
            states,
            least: true,
            ..
        } => states,
        Verdict::Machine { .. } => 0,
        Verdict::Unknown(_) => 0,
    }
}
