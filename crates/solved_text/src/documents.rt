use crate::letters::Letters;
use aiger_text::Circuit;
use letters_and_lassos::Kind;
use refutation_log::Entry;
use std::marker::Model;

/// What a document says of a text.
#[derive(Clone, Copy, Debug, PartialEq, Eq)]
pub enum Verdict {
    /// A circuit of the system, which reaches so many states.
    Realizable(u32),
    /// A circuit of the environment, which reaches so many states.
    Unrealizable(u32),
    /// Neither was found.
    Unknown,
}

/// The log of one size, with the letters over which its base clauses are, and the numbers of its variables and base clauses.
#[derive(Drop)]
pub struct SizeLog {
    pub size: u32,
    pub letters: Letters,
    pub vars: u32,
    pub base: u64,
    pub entries: Vec<Entry>,
    /// The line of the log's head.
    pub line: u64,
}

impl Model for SizeLog {
    ghost use Rattle.solved_text.specs.Parts as parts;

    ghost Value = { parts.SizeLog };

    ghost view = { λ l. record { size = l.size; letters = l.letters; vars = l.vars; base = l.base; entries = l.entries.items; line = l.line } };
}

/// A document, as it is written.
#[derive(Drop)]
pub struct Document {
    pub verdict: Verdict,
    /// The kind of the system's machines.
    pub kind: Kind,
    /// The text is taken with the other kind as its semantics.
    pub converted: bool,
    pub circuit: Option<Circuit>,
    /// The logs of the sizes from 1 up.
    pub logs: Vec<SizeLog>,
    /// The lines of the annotation, the last of which ends the document; none without a circuit.
    pub annotation: Vec<u8>,
}

impl Model for Document {
    ghost use Rattle.solved_text.specs.Parts as parts;

    ghost Value = { parts.Document };

    ghost view = { λ d. record { verdict = d.verdict; kind = d.kind; converted = d.converted; circuit = d.circuit; logs = d.logs.items; annotation = d.annotation.items } };
}
