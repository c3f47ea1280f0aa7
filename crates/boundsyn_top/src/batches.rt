//! The reply to `batch`.
ghost use Rattle.std.specs.Prelude.{◌≡◌, ◌≢◌, ◌^◌, ◌<◌, ◌≤◌, ℕ, List, Contains, IfOk, MatchOption, length};
ghost use Rattle.std.specs.List.{AllZip};
ghost use Rattle.input_output.specs.Faults.{Rose};
ghost use Rattle.program_replies.specs.Statuses.{status_number};
ghost use Rattle.program_words.specs.Settings.{batch};
ghost use Rattle.batch_answer.specs.ListText.{IsList};
ghost use Rattle.batch_answer.specs.Taken.{AreTexts};
ghost use Rattle.boundsyn_top.specs.Batch.{HasWorkers, IsBadList, IsListRefusal, IsListed, IsTakenAs, OneRose, RepliesByLines, RepliesByNames, TextsAnswers, wished};
ghost use Rattle.boundsyn_top.specs.Run.{IsOutputOf};
ghost use Rattle.boundsyn_top.specs.Steps.{step_of};
ghost use Rattle.boundsyn_top.specs.Takes.{TakesFile};

use crate::files::{LONGEST_TEXT, cannot_read, take_whole};
use crate::output::{Output, whole_output};
use batch_answer::laws::lists_are_determined;
use batch_answer::{FileName, ListFault, TakenText, batch_answer, read_list};
use input_output::{Gate, Shelf, ShelfFault};
use letters_and_lassos::Kind;
use outcome_news::Listener;
use program_replies::{Reply, Status, refused_at_line};
use solve_answer::Refuting;
use solve_batch::solve_batch;
use std::alloc::{AllocError, Global};
use std::sync::Wait;
use std::thread::Threads;
use synth_engine::Settings;
use time_limits::Stopwatch;

/// What is done with each text of a list.
#[derive(Clone, Copy)]
pub enum ListWish {
    /// It is searched, as `synth` does.
    Search(Settings),
    /// It is solved, with machines of a kind in place of its own if one is given.
    Solve(Option<Kind>, Refuting),
}

/// Answers the texts that a list names. They are taken only where the list has no bad line, and all before the first is answered.
pub(crate) fn answer_list<R, H, G, S, L>(
    rt: &R,
    alloc: Global,
    shelf: &mut H,
    list: &str,
    wanted: ListWish,
    gate: &G,
    stopwatch: &S,
    listener: &mut L,
) -> Result<Output, AllocError>
where
    R: Threads + Wait + Sync,
    H: Shelf,
    G: Gate + Sync,
    S: Stopwatch + Sync,
    L: Listener,
    requires workers { HasWorkers wanted }
    ensures output { IfOk result (IsOutputOf (step_of H.files H.faults shelf.old shelf.new) (batch list.now (wished wanted))) }
    ensures files { H.files shelf.new ≡ H.files shelf.old }
    ensures other_files { (name : List ℕ) → ¬ TakesFile (H.files shelf.old) (batch list.now (wished wanted)) name → H.faults shelf.new name ≡ H.faults shelf.old name }
{
    match take_whole(alloc, shelf, list)? {
        Some(lines) => whole_output(answer_lines(
            rt, alloc, shelf, &lines, wanted, gate, stopwatch, listener,
        )),
        None => whole_output(cannot_read(alloc)),
    }
}

/// Answers the texts that these lines name, unless a line is bad.
fn answer_lines<R, H, G, S, L>(
    rt: &R,
    alloc: Global,
    shelf: &mut H,
    lines: &[u8],
    wanted: ListWish,
    gate: &G,
    stopwatch: &S,
    listener: &mut L,
) -> Result<Reply, AllocError>
where
    R: Threads + Wait + Sync,
    H: Shelf,
    G: Gate + Sync,
    S: Stopwatch + Sync,
    L: Listener,
    requires workers { HasWorkers wanted }
    ensures reply { IfOk result (λ r. RepliesByLines (step_of H.files H.faults shelf.old shelf.new)
        lines.now (wished wanted) r.bytes.items (status_number r.status)) }
    ensures files { H.files shelf.new ≡ H.files shelf.old }
    ensures other_files { (name : List ℕ) → ¬ (IsListed lines.now name × ¬ IsBadList lines.now) → H.faults shelf.new name ≡ H.faults shelf.old name }
{
    lists_are_determined();
    match read_list(alloc, lines) {
        Ok(names) => answer_texts(rt, alloc, shelf, &names, wanted, gate, stopwatch, listener),
        Err(fault) => list_refusal(alloc, fault),
    }
}

/// The reply to a list with this fault.
fn list_refusal(alloc: Global, fault: ListFault) -> Result<Reply, AllocError>
    ensures { IfOk result (λ r. IsListRefusal fault r.bytes.items r.status) }
{
    match fault {
        ListFault::BadLine(line) => refused_at_line(alloc, line),
        ListFault::NoMemory => Err(AllocError),
    }
}

/// Takes the texts of these names, and answers them.
fn answer_texts<R, H, G, S, L>(
    rt: &R,
    alloc: Global,
    shelf: &mut H,
    names: &[FileName],
    wanted: ListWish,
    gate: &G,
    stopwatch: &S,
    listener: &mut L,
) -> Result<Reply, AllocError>
where
    R: Threads + Wait + Sync,
    H: Shelf,
    G: Gate + Sync,
    S: Stopwatch + Sync,
    L: Listener,
    requires few { length names.now ≤ 64 }
    requires workers { HasWorkers wanted }
    ensures reply { IfOk result (λ r. RepliesByNames (step_of H.files H.faults shelf.old shelf.new)
        names.now (wished wanted) r.bytes.items (status_number r.status)) }
    ensures files { H.files shelf.new ≡ H.files shelf.old }
    ensures other_files { (name : List ℕ) → ¬ Contains names.now name → H.faults shelf.new name ≡ H.faults shelf.old name }
{
    match take_texts(alloc, shelf, names)? {
        Some(texts) => answer_taken(rt, alloc, names, &texts, wanted, gate, stopwatch, listener),
        None => cannot_read(alloc),
    }
}

/// Answers the texts of these names.
fn answer_taken<R, G, S, L>(
    rt: &R,
    alloc: Global,
    names: &[FileName],
    texts: &[TakenText],
    wanted: ListWish,
    gate: &G,
    stopwatch: &S,
    listener: &mut L,
) -> Result<Reply, AllocError>
where
    R: Threads + Wait + Sync,
    G: Gate + Sync,
    S: Stopwatch + Sync,
    L: Listener,
    requires one_each { length names.now ≡ length texts.now }
    requires few { length texts.now < 2 ^ 32 }
    requires workers { HasWorkers wanted }
    ensures done { IfOk result (λ r. r.status ≡ Status.Done) }
    ensures answers { (files : List (List ℕ)) → AreTexts texts.now files → IfOk result (λ r. TextsAnswers names.now files (wished wanted) r.bytes.items) }
{
    match wanted {
        ListWish::Search(settings) => batch_answer(
            rt, alloc, names, texts, settings, gate, listener,
        ),
        ListWish::Solve(kind, refuting) => solve_batch(
            rt, alloc, names, texts, kind, refuting, gate, stopwatch, listener,
        ),
    }
}

/// Takes the texts of these names in turn. None where one can't be read.
fn take_texts<H: Shelf>(
    alloc: Global,
    shelf: &mut H,
    names: &[FileName],
) -> Result<Option<Vec<TakenText>>, AllocError>
    ensures taken { IfOk result (λ taken. MatchOption taken (OneRose (H.faults shelf.old) (H.faults shelf.new) names.now)
        (λ texts. AllZip (IsTakenAs (H.files shelf.old)) names.now texts.items)) }
    ensures files { H.files shelf.new ≡ H.files shelf.old }
    ensures other_files { (name : List ℕ) → ¬ Contains names.now name → H.faults shelf.new name ≡ H.faults shelf.old name }
{
    let mut texts = Vec::new(alloc);
    for name in names {
        match take_one(alloc, shelf, name.as_str())? {
            Some(text) => texts.push(text)?,
            None => return Ok(None),
        }
    }
    Ok(Some(texts))
}

/// Takes a text. None where it can't be read.
fn take_one<H: Shelf>(
    alloc: Global,
    shelf: &mut H,
    name: &str,
) -> Result<Option<TakenText>, AllocError>
    ensures taken { IfOk result (λ taken. MatchOption taken (Rose (H.faults shelf.old name.now) (H.faults shelf.new name.now))
        (IsTakenAs (H.files shelf.old) name.now)) }
    ensures files { H.files shelf.new ≡ H.files shelf.old }
    ensures others { (other : List ℕ) → other ≢ name.now → H.faults shelf.new other ≡ H.faults shelf.old other }
    ensures never_falls { (any : List ℕ) → H.faults shelf.old any ≤ H.faults shelf.new any }
{
    let mut bytes = Vec::new(alloc);
    match shelf.take(name, LONGEST_TEXT, &mut bytes) {
        Ok(()) => Ok(Some(TakenText::Whole(bytes))),
        Err(ShelfFault::TooLong) => Ok(Some(TakenText::TooLong)),
        Err(ShelfFault::Failed) => Ok(None),
        Err(ShelfFault::NoMemory) => Err(AllocError),
    }
}
