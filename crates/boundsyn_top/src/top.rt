//! The top call.
ghost use Rattle.std.specs.Prelude.{◌≡◌, ◌⊎◌, ℕ, List, [], ◌∷◌, map, codes, string_bytes, Contains};
ghost use Rattle.input_output.specs.Faults.{Rose};
ghost use Rattle.program_replies.specs.Lines.{line_refusal, refusal_line};
ghost use Rattle.program_replies.specs.Statuses.{status_number};
ghost use Rattle.program_words.specs.Settings.{Asked};
ghost use Rattle.spec_faults.specs.declared.code.SpecCode.{SpecCode};
ghost use Rattle.boundsyn_top.specs.Commands.{statuses_of};
ghost use Rattle.boundsyn_top.specs.Run.{AnswersWords, AskForNothing, Asks, EndsWith, Gained, GainedPart, IsEnding, IsForeign, IsReply, IsStopped, LineFails, ReadFailed, ReadsWell, TextFails, TextFailsUnread, answering};
ghost use Rattle.boundsyn_top.specs.Steps.{step_of};
ghost use Rattle.boundsyn_top.specs.Takes.{first_file};
ghost use Rattle.boundsyn_top.specs.Unread.{IsReadBehind};

use crate::laws::refusals_are_determined;
use crate::output::put_output;
use crate::replies::reply_to;
use input_output::{Gate, Shelf, Sink, SinkFault};
use outcome_news::Listener;
use program_replies::Status;
use std::alloc::Global;
use std::sync::Wait;
use std::thread::Threads;
use time_limits::Stopwatch;

/// Does what the words ask for, and gives the status to end with. The first word is the program's name.
/// Each line is one call of `put`, its end included. What is told of the answers of `solve`, `synth`, `core` and `batch`, and of that of `solve`
/// while it is made, the listener hears before the first line is written; nothing is promised of it. `solve` alone, and `batch` where it solves, ask the
/// stopwatch, where the words limit their seconds.
///
/// 0: done, accepted or verified. 10, 11, 20, 30: what `solve`, `synth` or `core` found. 1: the text is refused. 40: the list or the other file is
/// refused at a line. 2: the words are refused. 3: a file that was due couldn't be read, and no fault of the text is told in its place. 4: not
/// all could be written. 5: memory was wanted.
pub fn run<R, H, K, G, S, L>(
    rt: &R,
    alloc: Global,
    words: &[String],
    shelf: &mut H,
    out: &mut K,
    gate: &G,
    stopwatch: &S,
    listener: &mut L,
) -> u8
where
    R: Threads + Wait + Sync,
    H: Shelf,
    K: Sink,
    G: Gate + Sync,
    S: Stopwatch + Sync,
    L: Listener,
    ensures statuses { Contains (2 ∷ 3 ∷ 4 ∷ 5 ∷ answering) result }

    // What is written whole.
    ensures answered { Contains answering result → Gained (K.written out.old) (K.written out.new)
        (λ bytes. AnswersWords (map string_bytes words.now) (step_of H.files H.faults shelf.old shelf.new) bytes result) }
    ensures words_refused { result ≡ 2 → Gained (K.written out.old) (K.written out.new)
        (λ bytes. AskForNothing (map string_bytes words.now) × (bytes ≡ codes "words refused\n")) }
    ensures cannot_read { result ≡ 3 → Gained (K.written out.old) (K.written out.new)
        (λ bytes. ReadFailed (map string_bytes words.now) (step_of H.files H.faults shelf.old shelf.new) × (bytes ≡ codes "cannot read\n")) }

    // What is cut short: a front of bytes that would have been allowed.
    ensures cannot_write { result ≡ 4 → Rose (K.faults out.old) (K.faults out.new) }
    ensures cut_short { (result ≡ 4) ⊎ (result ≡ 5) → GainedPart (K.written out.old) (K.written out.new)
        (λ bytes status. IsReply (map string_bytes words.now) (step_of H.files H.faults shelf.old shelf.new) bytes status) }

    // When each refusal comes, unless something outside failed or memory was wanted.
    ensures bad_words_are_refused { AskForNothing (map string_bytes words.now) → Contains (2 ∷ 4 ∷ 5 ∷ []) result }
    ensures fault_is_refused { (code : SpecCode) (place : ℕ) → TextFails (map string_bytes words.now) (H.files shelf.old) code place
        → EndsWith (K.written out.old) (K.written out.new) (refusal_line code place) 1 result }
    ensures bad_line_is_refused { (n : ℕ) → LineFails (map string_bytes words.now) (H.files shelf.old) n
        → ((code : SpecCode) (place : ℕ) → ¬ TextFailsUnread (map string_bytes words.now) (step_of H.files H.faults shelf.old shelf.new) code place)
        → EndsWith (K.written out.old) (K.written out.new) (line_refusal n) 40 result }
    ensures unread_fault_is_refused { (code : SpecCode) (place : ℕ)
        (fails : TextFailsUnread (map string_bytes words.now) (step_of H.files H.faults shelf.old shelf.new) code place)
        → ¬ IsReadBehind (step_of H.files H.faults shelf.old shelf.new) fails.asked
        → EndsWith (K.written out.old) (K.written out.new) (refusal_line code place) 1 result }
    ensures complete { (asked : Asked) → Asks (map string_bytes words.now) asked → ReadsWell (step_of H.files H.faults shelf.old shelf.new) asked
        → ¬ Rose (K.faults out.old) (K.faults out.new) → Contains (5 ∷ statuses_of asked) result }

    // No other file is taken, and where the text or the list is refused none but its own.
    ensures files { H.files shelf.new ≡ H.files shelf.old }
    ensures other_files { (name : List ℕ) → IsForeign (map string_bytes words.now) (H.files shelf.old) name → H.faults shelf.new name ≡ H.faults shelf.old name }
    ensures refused_alone { (stopped : IsStopped (map string_bytes words.now) (H.files shelf.old))
        → (name : List ℕ) → ¬ Contains (first_file stopped.asked) name → H.faults shelf.new name ≡ H.faults shelf.old name }
{
    refusals_are_determined();
    let Ok(output) = reply_to(rt, alloc, words, shelf, gate, stopwatch, listener) else {
        return Status::NoMemory.number();
    };
    let status = output.status();
    status_after(put_output(alloc, &output, out), status)
}

/// The status to end with, once what has this status was written or not.
fn status_after(written: Result<(), SinkFault>, status: Status) -> u8
    ensures { IsEnding written (status_number status) result }
{
    match written {
        Ok(()) => status.number(),
        Err(SinkFault::Failed) => Status::CannotWrite.number(),
        Err(SinkFault::NoMemory) => Status::NoMemory.number(),
    }
}
