//! What a run writes, before it is written.
ghost use Rattle.std.specs.Prelude.{◌≡◌, ℕ, List, codes, map, string_bytes, IfOk};
ghost use Rattle.program_words.specs.Settings.{IsInRange, asked_by};
ghost use Rattle.boundsyn_top.specs.Run.{IsForeign, IsOutputFor, IsOutputOf};
ghost use Rattle.boundsyn_top.specs.Steps.{step_of};
ghost use Rattle.boundsyn_top.specs.Takes.{TakesFile};

use crate::arbiters::{generate, search_arbiter};
use crate::batches::{ListWish, answer_list};
use crate::certificates::check_certificate;
use crate::circuits::verify_circuit;
use crate::cores::find_core;
use crate::flat::{expand_spec, tell_truth};
use crate::output::{Output, whole_output};
use crate::solved_texts::{expand_solved, tell_solved};
use crate::solving::solve_spec;
use crate::synthesis::synthesize;
use input_output::{Gate, Shelf};
use outcome_news::Listener;
use program_replies::{Reply, Status, whole};
use program_words::{Settings, WordsFault, read_words};
use solve_answer::Refuting;
use std::alloc::{AllocError, Global};
use std::sync::Wait;
use std::thread::Threads;
use time_limits::Stopwatch;

/// What is written for the words, for which their files are taken from the shelf. The listener hears what is told of the answers.
pub fn reply_to<R, H, G, S, L>(
    rt: &R,
    alloc: Global,
    words: &[String],
    shelf: &mut H,
    gate: &G,
    stopwatch: &S,
    listener: &mut L,
) -> Result<Output, AllocError>
where
    R: Threads + Wait + Sync,
    H: Shelf,
    G: Gate + Sync,
    S: Stopwatch + Sync,
    L: Listener,
    ensures output { IfOk result (IsOutputFor (map string_bytes words.now) (step_of H.files H.faults shelf.old shelf.new)) }
    ensures files { H.files shelf.new ≡ H.files shelf.old }
    ensures other_files { (name : List ℕ) → IsForeign (map string_bytes words.now) (H.files shelf.old) name → H.faults shelf.new name ≡ H.faults shelf.old name }
{
    match read_words(alloc, words) {
        Ok(settings) => obey(rt, alloc, settings, shelf, gate, stopwatch, listener),
        Err(WordsFault::Refused) => whole_output(words_refused(alloc)),
        Err(WordsFault::NoMemory) => Err(AllocError),
    }
}

/// What is written for a command.
fn obey<R, H, G, S, L>(
    rt: &R,
    alloc: Global,
    settings: Settings<'_>,
    shelf: &mut H,
    gate: &G,
    stopwatch: &S,
    listener: &mut L,
) -> Result<Output, AllocError>
where
    R: Threads + Wait + Sync,
    H: Shelf,
    G: Gate + Sync,
    S: Stopwatch + Sync,
    L: Listener,
    requires { IsInRange (asked_by settings) }
    ensures output { IfOk result (IsOutputOf (step_of H.files H.faults shelf.old shelf.new) (asked_by settings.entry)) }
    ensures files { H.files shelf.new ≡ H.files shelf.old }
    ensures other_files { (name : List ℕ) → ¬ TakesFile (H.files shelf.old) (asked_by settings.entry) name → H.faults shelf.new name ≡ H.faults shelf.old name }
{
    match settings {
        Settings::Synth {
            spec,
            search: wanted,
            kind,
        } => { synthesize(rt, alloc, shelf, spec, wanted, kind, gate, listener) },
        Settings::Check { spec, certificate } => check_certificate(
            rt,
            alloc,
            shelf,
            spec,
            certificate,
        ),
        Settings::Expand { spec } => expand_spec(alloc, shelf, spec),
        Settings::ExpandSolve { spec, kind, nodes } => expand_solved(
            alloc, shelf, spec, kind, nodes,
        ),
        Settings::Lasso { spec, word } => tell_truth(alloc, shelf, spec, word),
        Settings::LassoSolve { spec, word, kind } => tell_solved(alloc, shelf, spec, word, kind),
        Settings::Gen { clients } => generate(alloc, clients),
        Settings::Bench { clients, workers } => search_arbiter(rt, alloc, clients, workers, gate),
        Settings::Verify {
            side,
            kind,
            spec,
            circuit,
        } => { verify_circuit(alloc, shelf, side, kind, spec, circuit) },
        Settings::Core {
            spec,
            search: wanted,
            kind,
        } => find_core(rt, alloc, shelf, spec, wanted, kind, gate, listener),
        Settings::Batch {
            list,
            search: wanted,
        } => answer_list(
            rt,
            alloc,
            shelf,
            list,
            ListWish::Search(wanted),
            gate,
            stopwatch,
            listener,
        ),
        Settings::SolveList {
            list,
            kind,
            max,
            entries,
            workers,
            seconds,
        } => {
            let refuting = Refuting {
                max,
                entries,
                workers,
                seconds,
            };
            answer_list(
                rt,
                alloc,
                shelf,
                list,
                ListWish::Solve(kind, refuting),
                gate,
                stopwatch,
                listener,
            )
        },
        Settings::Solve {
            spec,
            kind,
            max,
            entries,
            workers,
            seconds,
        } => {
            let refuting = Refuting {
                max,
                entries,
                workers,
                seconds,
            };
            solve_spec(
                rt, alloc, shelf, spec, kind, refuting, gate, stopwatch, listener,
            )
        },
    }
}

/// The reply to words that ask for nothing.
fn words_refused(alloc: Global) -> Result<Reply, AllocError>
    ensures { IfOk result (λ r. (r.bytes.items ≡ codes "words refused\n") × (r.status ≡ Status.WordsRefused)) }
{
    whole(alloc, b"words refused\n", Status::WordsRefused)
}
