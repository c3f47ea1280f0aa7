ghost use Rattle.std.specs.Prelude.{◌≡◌};
ghost use Rattle.document_text.specs.Order.{machine_of, named_of, verdict_of};
ghost use Rattle.document_text.specs.declared.documents.DocumentFault.TheVariants.{NoMemory};

use crate::order::Place;
use aiger_text::Circuit;
use letters_and_lassos::{Kind, Side};
use refutation_log::Entry;
use std::alloc::{AllocError, AllocFailed};
use std::marker::Model;
use thiserror::Error;

/// What a document says.
#[derive(Clone, Copy, Debug, PartialEq, Eq)]
pub enum Verdict {
    /// A machine of that side with so many states. Of the logs of its side's smaller sizes each is closed where it is the least, else one
    /// is full at least. Only from version 3 on does the environment's machine have logs, and is one told that needn't be the least.
    Machine {
        side: Side,
        states: u32,
        least: bool,
    },
    /// No machine. Each size has a closed log, or the log of this side and size is full, and the first that isn't closed.
    Unknown(Option<Place>),
}

impl Verdict {
    /// What is said of a machine of this side and size, or of none, beside logs of which this one is the first that isn't closed.
    pub fn of(machine: Option<Place>, first: Option<Place>) -> Verdict
        ensures { result ≡ verdict_of machine first }
    {
        match machine {
            Some(machine) => Verdict::Machine {
                side: machine.side,
                states: machine.size,
                least: first.is_none(),
            },
            None => Verdict::Unknown(first),
        }
    }

    /// The side and the number of states of its machine.
    pub fn machine(self) -> Option<Place>
        ensures { result ≡ machine_of self }
    {
        match self {
            Verdict::Machine { side, states, .. } => Some(Place { side, size: states }),
            Verdict::Unknown(_) => None,
        }
    }

    /// The side and the size that it names: those of its machine, or of a log.
    pub fn named(self) -> Option<Place>
        ensures { result ≡ named_of self }
    {
        match self {
            Verdict::Machine { side, states, .. } => Some(Place { side, size: states }),
            Verdict::Unknown(first) => first,
        }
    }
}

/// The log of one size of one side, with the numbers of the problem's variables and base clauses.
#[derive(Drop)]
pub struct LogPart {
    pub side: Side,
    pub size: u32,
    pub vars: u32,
    pub base: u64,
    pub entries: Vec<Entry>,
    /// The line of the log's head.
    pub line: u64,
}

impl Model for LogPart {
    ghost use Rattle.document_text.specs.Parts as parts;

    ghost Value = { parts.LogPart };

    ghost view = { λ l. record { side = l.side; size = l.size; vars = l.vars; base = l.base; entries = l.entries.items; line = l.line } };
}

/// A document, as it is written or as it was read.
#[derive(Drop)]
pub struct Document {
    /// 1, 2 or 3; what is written now is 3.
    pub version: u32,
    pub verdict: Verdict,
    /// The kind of the system's machines.
    pub kind: Kind,
    /// The greatest size that was asked for, from 1 to 8.
    pub max: u32,
    /// The limit on a log's entries, at most 250,000, or none.
    pub entries: Option<u64>,
    /// In versions 1 and 2 the size of a system's machine that was found beside a full log, else 0.
    pub found: u32,
    pub circuit: Option<Circuit>,
    pub logs: Vec<LogPart>,
    /// The line of the name of each input and then of each output.
    pub name_lines: Vec<u64>,
    /// The line `c` behind the circuit, 0 without a circuit.
    pub comment_line: u64,
    pub verdict_line: u64,
}

impl Model for Document {
    ghost use Rattle.document_text.specs.Parts as parts;

    ghost Value = { parts.Document };

    ghost view = { λ d. record { version = d.version; verdict = d.verdict; kind = d.kind; max = d.max; entries = d.entries; found = d.found; circuit = d.circuit; logs = d.logs.items; name_lines = d.name_lines.items; comment_line = d.comment_line; verdict_line = d.verdict_line } };
}

/// Why bytes are no document.
#[derive(Clone, Copy, Debug, PartialEq, Eq, Error)]
pub enum DocumentFault {
    #[error("out of memory")]
    NoMemory,
    /// The first line that isn't what is wanted there, from 1.
    #[error("line {0} isn't what a document has there")]
    BadLine(u64),
}

impl From<AllocError> for DocumentFault {
    ghost from_gives = { λ _ fault. fault ≡ NoMemory };

    fn from(_error: AllocError) -> DocumentFault {
        DocumentFault::NoMemory
    }
}

impl<T: Drop> From<AllocFailed<T>> for DocumentFault {
    ghost from_gives = { λ _ fault. fault ≡ NoMemory };

    fn from(_error: AllocFailed<T>) -> DocumentFault {
        DocumentFault::NoMemory
    }
}
