//! Annotates circuits of other makers, so that `verify` can check them: for each text and circuit that it is called with, it prints
//! the circuit with a comment that `verify` accepts, or says why there is none. It walks through the pairs of latch values and states
//! of the text's automaton that are reached. It promises safety alone; what it prints is what verify_answer accepted.
#![tactic(auto)]

mod annotation;
mod components;
mod graph;
mod lasso;

use annotation::{Outcome, annotate};
use diagnostics::{Heard, KeptFiles, Seen, message};
use input_output::{FileShelf, Shelf, ShelfFault, Sink};
use program_customs::{
    Asked, ProgramOutput, asked_of, file_of, is_input, left_output, take_output, twice_message,
    unwritten_message,
};
use program_replies::{Reply, Status};
use shown_text::push_shown;
use std::alloc::{AllocError, Global};
use std::env;
use std::io::{Error, ErrorKind};
use std::process::ExitCode;
use std::rt::Files;

const VERSION: &str = "annotate 0.3.0\n";

const PROGRAM: &str = "annotate";

const USAGE: &str = "usage: annotate SPEC CIRCUIT [SPEC CIRCUIT ..]
or annotate --help | --version; `-` is standard input, and `-o FILE` before all words writes FILE
";

/// A file by its name, with its bytes.
#[derive(Clone, Copy)]
struct File<'a> {
    name: &'a str,
    bytes: &'a [u8],
}

/// Where what is printed goes.
type Output<'a> = ProgramOutput<'a, HostRuntime>;

/// The bytes of a file, or the status where it has none, behind that this was told.
fn bytes_of(
    rt: &HostRuntime,
    alloc: Global,
    out: &mut Output<'_>,
    name: &str,
) -> Result<Vec<u8>, Status> {
    let mut bytes = Vec::new(alloc);
    let mut shelf = FileShelf::new(rt, alloc);
    match shelf.take(file_of(name), u64::MAX, &mut bytes) {
        Ok(()) => Ok(bytes),
        Err(ShelfFault::NoMemory) => Err(no_memory(rt)),
        Err(_) => {
            let _ = out.put(b"cannot read\n");
            tell(rt, unread(alloc, name, shelf.last_error()));
            Err(Status::CannotRead)
        }
    }
}

/// What comes of one text and one circuit: its status, behind that it was written.
fn answer(
    rt: &HostRuntime,
    alloc: Global,
    out: &mut Output<'_>,
    text: File<'_>,
    circuit: File<'_>,
) -> Status {
    match annotate(alloc, text.bytes, circuit.bytes) {
        Ok(Outcome::Annotated(bytes)) => written(rt, alloc, out, &bytes, Status::Done),
        Ok(Outcome::Told(bytes)) => written(rt, alloc, out, &bytes, Status::Refused),
        Ok(Outcome::Refused(reply)) => {
            tell(rt, refusal(alloc, text, circuit, &reply));
            written(rt, alloc, out, &reply.bytes, Status::Refused)
        }
        Err(_) => no_memory(rt),
    }
}

fn answer_named(
    rt: &HostRuntime,
    alloc: Global,
    out: &mut Output<'_>,
    text: &str,
    circuit: &str,
) -> Status {
    let text_bytes = match bytes_of(rt, alloc, out, text) {
        Ok(bytes) => bytes,
        Err(status) => return status,
    };
    let circuit_bytes = match bytes_of(rt, alloc, out, circuit) {
        Ok(bytes) => bytes,
        Err(status) => return status,
    };
    let text = File {
        name: text,
        bytes: &text_bytes,
    };
    let circuit = File {
        name: circuit,
        bytes: &circuit_bytes,
    };
    answer(rt, alloc, out, text, circuit)
}

/// Writes to the output, and gives the status.
fn written(
    rt: &HostRuntime,
    alloc: Global,
    out: &mut Output<'_>,
    bytes: &[u8],
    status: Status,
) -> Status {
    match out.put(bytes) {
        Ok(()) => status,
        Err(_) => {
            tell_unwritten(rt, alloc, out.last_error());
            Status::CannotWrite
        }
    }
}

// == messages ==

/// Writes a message to standard error, where there is one. Nothing comes of it where that can't be written.
fn tell(rt: &impl Eprint, message: Result<String, AllocError>) {
    if let Ok(message) = message {
        let _ = rt.eprint(&message);
    }
}

fn no_memory(rt: &impl Eprint) -> Status {
    let _ = rt.eprint("annotate: error: memory ran out\n");
    Status::NoMemory
}

fn unread(alloc: Global, name: &str, error: Option<Error>) -> Result<String, AllocError> {
    let mut message = String::new(alloc);
    push_shown(alloc, name.as_bytes(), &mut message)?;
    message.push_str(&match error {
        Some(error) => format!(in alloc; ": error: can't be read: {error}\n")?,
        None => String::from_str(alloc, ": error: can't be read\n")?,
    })?;
    Ok(message)
}

/// Says why the output can't be written. A reader that closes its pipe wants no more, and no word about it.
fn tell_unwritten(rt: &HostRuntime, alloc: Global, error: Option<Error>) {
    if let Some(error) = error {
        if error.kind() != ErrorKind::BrokenPipe {
            tell(rt, unwritten_message(alloc, PROGRAM, &error));
        }
    }
}

/// What `boundsyn verify` says where it gives that reply.
fn refusal(
    alloc: Global,
    text: File<'_>,
    circuit: File<'_>,
    reply: &Reply,
) -> Result<String, AllocError> {
    let mut words = Vec::new(alloc);
    words.push(String::from_str(alloc, "boundsyn")?)?;
    words.push(String::from_str(alloc, "verify")?)?;
    let mut files = KeptFiles::new(alloc);
    files.keep(text.name, text.bytes);
    files.keep(circuit.name, circuit.bytes);
    let mut heard = Heard::new(alloc, false);
    heard.hear(
        reply
            .bytes
            .split(|byte| *byte == b'\n')
            .next()
            .unwrap_or(b""),
    );
    let seen = Seen {
        words: &words,
        status: reply.status.number(),
        files: &files,
        heard: &heard,
        read_error: None,
        write_error: None,
        is_searched: false,
        milliseconds: 0,
    };
    message(alloc, seen, false)
}

/// Refuses words, for a reason that is told.
fn refused(rt: &HostRuntime, out: &mut Output<'_>, reason: Result<String, AllocError>) -> Status {
    let _ = out.put(b"words refused\n");
    tell(rt, reason);
    Status::WordsRefused
}

fn wrong_word(alloc: Global, word: &str, why: &str) -> Result<String, AllocError> {
    let mut message = String::from_str(alloc, "annotate: error: `")?;
    push_shown(alloc, word.as_bytes(), &mut message)?;
    message.push_str(why)?;
    message.push_str(USAGE)?;
    Ok(message)
}

// == words ==

/// Answers each text with its circuit, behind a line with their names where there are several, and gives the worst status.
fn all_answers(
    rt: &HostRuntime,
    alloc: Global,
    out: &mut Output<'_>,
    names: &[String],
) -> Result<Status, AllocError> {
    let mut worst = Status::Done;
    for pair in names.chunks(2) {
        let (Some(text), Some(circuit)) = (pair.first(), pair.get(1)) else {
            break;
        };
        if names.len() > 2 {
            let line = format!(in alloc; "==== {text} {circuit}\n")?;
            if out.put(line.as_bytes()).is_err() {
                tell_unwritten(rt, alloc, out.last_error());
                return Ok(Status::CannotWrite);
            }
        }
        let status = answer_named(rt, alloc, out, text, circuit);
        if status.number() > worst.number() {
            worst = status;
        }
    }
    Ok(worst)
}

/// Answers the words.
fn answer_words(
    rt: &HostRuntime,
    alloc: Global,
    out: &mut Output<'_>,
    words: &[String],
) -> Result<Status, AllocError> {
    match asked_of(words) {
        Some(Asked::Help) => return Ok(written(rt, alloc, out, USAGE.as_bytes(), Status::Done)),
        Some(Asked::Version) => {
            return Ok(written(rt, alloc, out, VERSION.as_bytes(), Status::Done));
        }
        None => {}
    }
    if let Some(word) = left_output(words) {
        let reason = wrong_word(
            alloc,
            word,
            "` has no file behind it, or stands there twice\n",
        );
        return Ok(refused(rt, out, reason));
    }
    let names = words.get(1..).unwrap_or(&[]);
    let inputs = names.iter().filter(|name| is_input(name.as_str())).count();
    match words.get(1).map(|word| word.as_str()) {
        Some(word) if word.starts_with("--") => {
            let reason = wrong_word(alloc, word, "` is no word of annotate\n");
            Ok(refused(rt, out, reason))
        }
        None => Ok(refused(rt, out, wrong_word(alloc, "SPEC", "` is missing\n"))),
        Some(_) if words.len() % 2 == 0 => {
            let last = words.last().map_or("", |word| word.as_str());
            let reason = wrong_word(alloc, last, "` is a text without a circuit behind it\n");
            Ok(refused(rt, out, reason))
        }
        Some(_) if inputs > 1 => Ok(refused(rt, out, twice_message(alloc, PROGRAM))),
        Some(_) => all_answers(rt, alloc, out, names),
    }
}

/// Answers the words into the output that they name, and gives the status.
fn status_of(
    rt: &HostRuntime,
    alloc: Global,
    words: &mut Vec<String>,
) -> Result<Status, AllocError> {
    let file = take_output(alloc, words, &[])?;
    let name = match &file {
        Some(name) => Some(name.as_str()),
        None => None,
    };
    let mut out = match ProgramOutput::open(rt, alloc, name) {
        Ok(out) => out,
        Err(error) => {
            tell_unwritten(rt, alloc, Some(error));
            return Ok(Status::CannotWrite);
        }
    };
    let status = answer_words(rt, alloc, &mut out, words)?;
    match out.end(status.number()) {
        Ok(()) => Ok(status),
        Err(error) => {
            tell_unwritten(rt, alloc, Some(error));
            Ok(Status::CannotWrite)
        }
    }
}

fn main(rt: HostRuntime) -> ExitCode {
    let alloc = rt.alloc();
    // Words that are no text are refused as no words are.
    let mut words: Vec<String> = match env::args(&rt) {
        Ok(args) => args.collect(alloc).unwrap_or(Vec::new(alloc)),
        Err(_) => Vec::new(alloc),
    };
    let status = match status_of(&rt, alloc, &mut words) {
        Ok(status) => status,
        Err(_) => no_memory(&rt),
    };
    ExitCode::from(status.number())
}
