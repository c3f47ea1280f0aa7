//! The lines of a document before its logs.
ghost use Rattle.std.specs.Prelude.{◌≡◌, ◌+◌, ◌-◌, ◌<◌, ◌^◌, option_map};
ghost use Rattle.std.specs.Option.{option_copied};
ghost use Rattle.document_text.specs.Header.{behind as behind_front, front, kind_in, number_behind as number_after};
ghost use Rattle.solved_text.specs.Lines.{semantics_text};
ghost use Rattle.solved_text.specs.Header.{bad_at as with_bad, has_its_place, header_of, is_number_of_states, may_stand, no_header, on_kind, on_refuted, on_semantics, on_verdict, refuted_at as with_refuted, refuted_in, tells_states, verdict_in as verdict_of_line};
ghost use Rattle.solved_text.specs.Shown.{shown_header};

use crate::documents::Verdict;
use aiger_text::{cut_at, number_within};
use document_text::{behind, capped, kind_at};
use letters_and_lassos::Kind;

/// The most states that a document tells of.
const MOST_STATES: u32 = 65_536;

/// What the lines of a document before its logs state, each as far as those before it are good.
#[derive(Clone, Copy)]
pub struct Header {
    /// Its number is at most the greatest of 32 bits, for which a larger one stands.
    pub verdict: Option<Verdict>,
    /// The kind of the system's machines.
    pub kind: Option<Kind>,
    /// The line behind that of the kind says that the semantics are of the other kind.
    pub converted: bool,
    /// With a circuit the sizes from 1 to this number are refuted.
    pub refuted: Option<u32>,
    /// The first of these lines that is bad.
    pub bad: Option<u64>,
}

/// What was read of a header, the line behind it, and the bytes from there on.
#[derive(Clone, Copy)]
pub struct HeaderRead<'a> {
    pub header: Header,
    pub line: u64,
    pub rest: &'a [u8],
}

impl Header {
    /// Nothing was read.
    pub(crate) fn none() -> Header
        ensures { result ≡ no_header }
    {
        Header {
            verdict: None,
            kind: None,
            converted: false,
            refuted: None,
            bad: None,
        }
    }

    /// Line n is the first bad one.
    fn bad_at<'a>(self, n: u64) -> HeaderRead<'a>
        ensures { shown_header result ≡ with_bad self n }
    {
        HeaderRead {
            header: Header {
                bad: Some(n),
                ..self
            },
            line: n,
            rest: &[],
        }
    }
}

/// Reads the lines of a header, the first of which is line `first`, behind a circuit or without one.
pub(crate) fn read_header(circuit: bool, first: u64, bytes: &[u8]) -> HeaderRead<'_>
    requires { first + 8 < 2 ^ 64 }
    ensures { shown_header result ≡ header_of circuit first bytes.now }
{
    let header = Header::none();
    let Some(rest) = behind(bytes, b"boundsyn 6\n") else {
        return header.bad_at(first);
    };
    read_verdict(header, circuit, first, rest)
}

fn read_verdict(header: Header, circuit: bool, first: u64, bytes: &[u8]) -> HeaderRead<'_>
    requires { first + 8 < 2 ^ 64 }
    ensures { shown_header result ≡ on_verdict header circuit first (front verdict_of_line bytes.now) }
{
    let Some((verdict, rest)) = verdict_at(bytes) else {
        return header.bad_at(first + 1);
    };
    let header = Header {
        verdict: Some(verdict),
        ..header
    };
    if !verdict.may_stand(circuit) {
        return header.bad_at(first + 1);
    }
    read_kind(header, first, verdict, rest)
}

fn read_kind(header: Header, first: u64, verdict: Verdict, bytes: &[u8]) -> HeaderRead<'_>
    requires { first + 8 < 2 ^ 64 }
    ensures { shown_header result ≡ on_kind header first verdict (front kind_in bytes.now) }
{
    let Some((kind, rest)) = kind_at(bytes) else {
        return header.bad_at(first + 2);
    };
    let header = Header {
        kind: Some(kind),
        ..header
    };
    read_semantics(header, first + 3, verdict, kind, rest)
}

/// Reads the line of the semantics, where it is line n, and what stands behind it.
fn read_semantics(
    header: Header,
    n: u64,
    verdict: Verdict,
    kind: Kind,
    bytes: &[u8],
) -> HeaderRead<'_>
    requires { n + 4 < 2 ^ 64 }
    ensures { shown_header result ≡ on_semantics header n verdict bytes.now (behind_front (semantics_text kind) bytes.now) }
{
    match behind_semantics(kind, bytes) {
        Some(rest) => {
            let header = Header {
                converted: true,
                ..header
            };
            refuted_at(header, n + 1, verdict, rest)
        }
        None => refuted_at(header, n, verdict, bytes),
    }
}

/// Only with a circuit line n says how many sizes are refuted.
fn refuted_at(header: Header, n: u64, verdict: Verdict, bytes: &[u8]) -> HeaderRead<'_>
    requires { n + 1 < 2 ^ 64 }
    ensures { shown_header result ≡ with_refuted header n verdict bytes.now }
{
    match verdict {
        Verdict::Realizable(states) => read_refuted(header, n, states, bytes),
        Verdict::Unrealizable(states) => read_refuted(header, n, states, bytes),
        Verdict::Unknown => HeaderRead {
            header,
            line: n,
            rest: bytes,
        },
    }
}

fn read_refuted(header: Header, n: u64, states: u32, bytes: &[u8]) -> HeaderRead<'_>
    requires { n + 1 < 2 ^ 64 }
    ensures { shown_header result ≡ on_refuted header n (front (refuted_in states) bytes.now) }
{
    match refuted_line(states, bytes) {
        Some((refuted, rest)) => HeaderRead {
            header: Header {
                refuted: Some(refuted),
                ..header
            },
            line: n + 1,
            rest,
        },
        None => header.bad_at(n),
    }
}

impl Verdict {
    /// Whether it may stand there, as far as that needs no text.
    fn may_stand(self, circuit: bool) -> bool
        ensures { result ≡ may_stand circuit self }
    {
        self.has_its_place(circuit) && self.tells_states()
    }

    /// Whether it stands behind a circuit, or without one, as it wants.
    fn has_its_place(self, circuit: bool) -> bool
        ensures { result ≡ has_its_place circuit self }
    {
        match self {
            Verdict::Realizable(_) => circuit,
            Verdict::Unrealizable(_) => circuit,
            Verdict::Unknown => !circuit,
        }
    }

    /// Whether its number is one of states.
    fn tells_states(self) -> bool
        ensures { result ≡ tells_states self }
    {
        match self {
            Verdict::Realizable(states) => is_number_of_states(states),
            Verdict::Unrealizable(states) => is_number_of_states(states),
            Verdict::Unknown => true,
        }
    }
}

fn is_number_of_states(n: u32) -> bool
    ensures { result ≡ is_number_of_states n }
{
    1 <= n && n <= MOST_STATES
}

/// What the first line states, with the bytes behind it, where it is of its form.
fn verdict_at(bytes: &[u8]) -> Option<(Verdict, &[u8])>
    ensures { option_map (λ p. (p.0, p.1.now)) result ≡ front verdict_of_line bytes.now }
{
    let (line, rest) = cut_at(bytes, b'\n')?;
    let verdict = verdict_in(line)?;
    Some((verdict, rest))
}

fn verdict_in(line: &[u8]) -> Option<Verdict>
    ensures { result ≡ verdict_of_line line.now }
{
    if line == b"verdict unknown".as_slice() {
        return Some(Verdict::Unknown);
    }
    if let Some(n) = number_behind(line, b"verdict realizable ") {
        return Some(Verdict::Realizable(n));
    }
    match number_behind(line, b"verdict unrealizable ") {
        Some(n) => Some(Verdict::Unrealizable(n)),
        None => None,
    }
}

fn number_behind(line: &[u8], words: &[u8]) -> Option<u32>
    ensures { result ≡ number_after words.now line.now }
{
    capped(behind(line, words)?)
}

/// What stands behind the line that names the other kind, where it comes first.
fn behind_semantics(kind: Kind, bytes: &[u8]) -> Option<&[u8]>
    ensures { option_copied result ≡ behind_front (semantics_text kind) bytes.now }
{
    match kind {
        Kind::Mealy => behind(bytes, b"semantics Moore\n"),
        Kind::Moore => behind(bytes, b"semantics Mealy\n"),
    }
}

fn refuted_line(states: u32, bytes: &[u8]) -> Option<(u32, &[u8])>
    ensures { option_map (λ p. (p.0, p.1.now)) result ≡ front (refuted_in states) bytes.now }
{
    let (line, rest) = cut_at(bytes, b'\n')?;
    let most = u64::from(states.saturating_sub(1));
    let refuted = number_within(behind(line, b"refuted ")?, most)?;
    Some((refuted as u32, rest))
}
