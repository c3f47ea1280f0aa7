//! Replies and statuses.
ghost use Rattle.std.specs.Prelude.{◌≡◌, ◌==◌, ◌++◌, codes, decimal, IfOk, OnOk};
ghost use Rattle.spec_faults.specs.Codes.{name_of, code_number};
ghost use Rattle.program_replies.specs.Lines.{line_count, line_refusal, refusal_line};
ghost use Rattle.program_replies.specs.Refusals.{IsRefusal};

use names_and_numbers::push_number;
use spec_faults::{SpecCode, SpecFault};
use std::alloc::{AllocError, Global};

/// With which status the program ends.
#[derive(Clone, Copy)]
pub enum Status {
    /// Done, or accepted.
    Done = 0,
    /// The text has a fault.
    Refused = 1,
    WordsRefused = 2,
    CannotRead = 3,
    CannotWrite = 4,
    NoMemory = 5,
    /// A circuit, with a closed log for each smaller size.
    Realizable = 10,
    /// A machine whose smaller sizes aren't all refuted.
    Bounded = 11,
    /// A counter-machine, with a closed log for each smaller size.
    Unrealizable = 20,
    Unknown = 30,
    /// A certificate or a word is refused at a line.
    LineRefused = 40,
}

impl Status {
    ghost use Rattle.program_replies.specs.Statuses.{status_number};

    /// The number that the program ends with.
    pub fn number(self) -> u8
        ensures { result ≡ status_number self }
    {
        self as u8
    }
}

/// Bytes of whole lines, and the status once they are written.
#[derive(Drop)]
pub struct Reply {
    pub bytes: Vec<u8>,
    pub status: Status,
}

/// The reply of these bytes.
pub fn whole(alloc: Global, bytes: &[u8], status: Status) -> Result<Reply, AllocError>
    ensures { IfOk result (λ r. (r.bytes.items ≡ bytes.now) × (r.status ≡ status)) }
{
    Ok(Reply {
        bytes: Vec::from_slice(alloc, bytes)?,
        status,
    })
}

/// The reply to a text with this fault at this byte.
pub fn refused(alloc: Global, code: SpecCode, place: u64) -> Result<Reply, AllocError>
    ensures { IfOk result (λ r. (r.bytes.items ≡ refusal_line code place) × (r.status ≡ Status.Refused)) }
{
    let mut bytes = Vec::new(alloc);
    bytes.extend_from_slice(b"refused ")?;
    push_number(&mut bytes, u64::from(code.number()))?;
    bytes.extend_from_slice(b" ")?;
    bytes.extend_from_slice(code.name().as_bytes())?;
    bytes.extend_from_slice(b" at ")?;
    push_number(&mut bytes, place)?;
    bytes.extend_from_slice(b"\n")?;
    Ok(Reply {
        bytes,
        status: Status::Refused,
    })
}

/// The reply to a text with this fault.
pub fn refusal(alloc: Global, fault: SpecFault) -> Result<Reply, AllocError>
    ensures { IfOk result (λ r. IsRefusal fault r.bytes.items r.status) }
{
    match fault {
        SpecFault::At { code, place } => refused(alloc, code, place),
        SpecFault::NoMemory => Err(AllocError),
    }
}

/// The reply to a certificate or a word whose first bad line is this one, from 1.
pub fn refused_at_line(alloc: Global, line: u64) -> Result<Reply, AllocError>
    ensures { IfOk result (λ r. (r.bytes.items ≡ line_refusal line) × (r.status ≡ Status.LineRefused)) }
{
    let mut bytes = Vec::new(alloc);
    bytes.extend_from_slice(b"refused at line ")?;
    push_number(&mut bytes, line)?;
    bytes.extend_from_slice(b"\n")?;
    Ok(Reply {
        bytes,
        status: Status::LineRefused,
    })
}

/// How many lines the bytes are, each of which has its line end.
pub fn line_count(bytes: &[u8]) -> usize
    ensures { result ≡ line_count bytes.now }
{
    bytes.iter().filter(|byte| **byte == b'\n').count()
}
