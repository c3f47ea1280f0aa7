//! The lines of a document before its logs.
ghost use Rattle.std.specs.Prelude.{◌≡◌, ◌+◌, ◌<◌, ◌^◌, option_map, option_and_then};
ghost use Rattle.document_text.specs.Header.{any_verdict_in as verdict_of_line, behind, bad_at as with_bad, capped, entries_in, found_at as with_found, found_in, front, header_of, kind_in, machine_in as machine_of_line, max_in, no_header, number_behind as number_after, on_entries, on_kind, on_max, on_verdict, unknown_in as unknown_of_line, verdict_in, version_in, version_number as version_number_of};
ghost use Rattle.document_text.specs.Shown.{shown_header};
ghost use Rattle.document_text.specs.Order.{may_tell_found};

use crate::documents::Verdict;
use crate::order::{Place, fits_max, fits_version, has_its_place, is_version, may_tell_found};
use crate::words::{behind, capped, in_range, machine_words, unknown_words};
use aiger_text::{cut_at, number_within};
use letters_and_lassos::{Kind, Side};

/// What the lines of a document before its logs state, each as far as those before it are good.
#[derive(Clone, Copy)]
pub struct Header {
    pub version: Option<u32>,
    /// Its number is at most the greatest of 32 bits, for which a larger one stands.
    pub verdict: Option<Verdict>,
    pub kind: Option<Kind>,
    pub max: Option<u32>,
    /// The limit on a log's entries.
    pub entries: Option<Option<u64>>,
    /// The number of states of a machine that was found, or 0.
    pub found: u32,
    /// The first of these lines that is bad.
    pub bad: Option<u64>,
}

/// What was read of a header, and the bytes behind it.
#[derive(Clone, Copy)]
pub struct HeaderRead<'a> {
    pub header: Header,
    pub rest: &'a [u8],
}

impl Header {
    /// Nothing was read.
    pub fn none() -> Header
        ensures { result ≡ no_header }
    {
        Header {
            version: None,
            verdict: None,
            kind: None,
            max: None,
            entries: None,
            found: 0,
            bad: None,
        }
    }

    /// Line n is the first bad one.
    fn bad_at<'a>(self, n: u64) -> HeaderRead<'a>
        ensures { shown_header result ≡ with_bad self n }
    {
        HeaderRead {
            header: Header {
                bad: Some(n),
                ..self
            },
            rest: &[],
        }
    }
}

/// Reads the lines of a header, the first of which is line `first`, behind a circuit or without one.
pub fn read_header(circuit: bool, first: u64, bytes: &[u8]) -> HeaderRead<'_>
    requires { first + 8 < 2 ^ 64 }
    ensures { shown_header result ≡ header_of circuit first bytes.now }
{
    let header = Header::none();
    let Some((version, rest)) = version_at(bytes) else {
        return header.bad_at(first);
    };
    let header = Header {
        version: Some(version),
        ..header
    };
    read_verdict(header, circuit, first, version, rest)
}

fn read_verdict(
    header: Header,
    circuit: bool,
    first: u64,
    version: u32,
    bytes: &[u8],
) -> HeaderRead<'_>
    requires { first + 8 < 2 ^ 64 }
    ensures { shown_header result ≡ on_verdict header circuit first version (front (verdict_in version) bytes.now) }
{
    let Some((verdict, rest)) = verdict_at(version, bytes) else {
        return header.bad_at(first + 1);
    };
    let header = Header {
        verdict: Some(verdict),
        ..header
    };
    if !has_its_place(circuit, verdict) {
        return header.bad_at(first + 1);
    }
    read_kind(header, first, version, verdict, rest)
}

fn read_kind(
    header: Header,
    first: u64,
    version: u32,
    verdict: Verdict,
    bytes: &[u8],
) -> HeaderRead<'_>
    requires { first + 8 < 2 ^ 64 }
    ensures { shown_header result ≡ on_kind header first version verdict (front kind_in bytes.now) }
{
    let Some((kind, rest)) = kind_at(bytes) else {
        return header.bad_at(first + 2);
    };
    let header = Header {
        kind: Some(kind),
        ..header
    };
    read_max(header, first, version, verdict, rest)
}

fn read_max(
    header: Header,
    first: u64,
    version: u32,
    verdict: Verdict,
    bytes: &[u8],
) -> HeaderRead<'_>
    requires { first + 8 < 2 ^ 64 }
    ensures { shown_header result ≡ on_max header first version verdict (front max_in bytes.now) }
{
    let Some((max, rest)) = max_at(bytes) else {
        return header.bad_at(first + 3);
    };
    let header = Header {
        max: Some(max),
        ..header
    };
    if !fits_max(max, verdict) {
        return header.bad_at(first + 1);
    }
    read_limit(header, first, version, verdict, max, rest)
}

fn read_limit(
    header: Header,
    first: u64,
    version: u32,
    verdict: Verdict,
    max: u32,
    bytes: &[u8],
) -> HeaderRead<'_>
    requires { first + 8 < 2 ^ 64 }
    ensures { shown_header result ≡ on_entries header first version verdict max (front entries_in bytes.now) }
{
    let Some((entries, rest)) = limit_at(bytes) else {
        return header.bad_at(first + 4);
    };
    let header = Header {
        entries: Some(entries),
        ..header
    };
    read_found(header, may_tell_found(version, verdict), max, rest)
}

fn read_found(header: Header, may_tell: bool, max: u32, bytes: &[u8]) -> HeaderRead<'_>
    ensures { shown_header result ≡ with_found header may_tell max bytes.now }
{
    if may_tell {
        if let Some((found, rest)) = found_at(max, bytes) {
            return HeaderRead {
                header: Header { found, ..header },
                rest,
            };
        }
    }
    HeaderRead {
        header,
        rest: bytes,
    }
}

/// What the first line states, with the bytes behind it, where it is of its form.
fn version_at(bytes: &[u8]) -> Option<(u32, &[u8])>
    ensures { option_map (λ p. (p.0, p.1.now)) result ≡ front version_in bytes.now }
{
    let (line, rest) = cut_at(bytes, b'\n')?;
    let version = version_number(behind(line, b"boundsyn ")?)?;
    Some((version, rest))
}

fn version_number(word: &[u8]) -> Option<u32>
    ensures { result ≡ version_number_of word.now }
{
    let version = in_range(word, 1, 5)?;
    if is_version(version) {
        Some(version)
    } else {
        None
    }
}

fn verdict_at(version: u32, bytes: &[u8]) -> Option<(Verdict, &[u8])>
    ensures { option_map (λ p. (p.0, p.1.now)) result ≡ front (verdict_in version) bytes.now }
{
    let (line, rest) = cut_at(bytes, b'\n')?;
    let verdict = any_verdict_in(line)?;
    if fits_version(version, verdict) {
        Some((verdict, rest))
    } else {
        None
    }
}

/// The kind that the first line states, with the bytes behind it, where it is of its form.
pub fn kind_at(bytes: &[u8]) -> Option<(Kind, &[u8])>
    ensures { option_map (λ p. (p.0, p.1.now)) result ≡ front kind_in bytes.now }
{
    let (line, rest) = cut_at(bytes, b'\n')?;
    if line == b"kind Mealy".as_slice() {
        Some((Kind::Mealy, rest))
    } else if line == b"kind Moore".as_slice() {
        Some((Kind::Moore, rest))
    } else {
        None
    }
}

fn max_at(bytes: &[u8]) -> Option<(u32, &[u8])>
    ensures { option_map (λ p. (p.0, p.1.now)) result ≡ front max_in bytes.now }
{
    let (line, rest) = cut_at(bytes, b'\n')?;
    let max = in_range(behind(line, b"max ")?, 1, 8)?;
    Some((max, rest))
}

fn limit_at(bytes: &[u8]) -> Option<(Option<u64>, &[u8])>
    ensures { option_map (λ p. (p.0, p.1.now)) result ≡ front entries_in bytes.now }
{
    let (line, rest) = cut_at(bytes, b'\n')?;
    if line == b"entries none".as_slice() {
        return Some((None, rest));
    }
    let most = number_within(behind(line, b"entries ")?, 250_000)?;
    Some((Some(most), rest))
}

fn found_at(max: u32, bytes: &[u8]) -> Option<(u32, &[u8])>
    ensures { option_map (λ p. (p.0, p.1.now)) result ≡ front (found_in max) bytes.now }
{
    let (line, rest) = cut_at(bytes, b'\n')?;
    let found = in_range(behind(line, b"found ")?, 2, max)?;
    Some((found, rest))
}

fn number_behind(line: &[u8], words: &[u8]) -> Option<u32>
    ensures { result ≡ number_after words.now line.now }
{
    capped(behind(line, words)?)
}

fn any_verdict_in(line: &[u8]) -> Option<Verdict>
    ensures { result ≡ verdict_of_line line.now }
{
    if line == b"verdict unknown sizes".as_slice() {
        return Some(Verdict::Unknown(None));
    }
    let least = machine_in(Side::System, true, line).or(machine_in(Side::Environment, true, line));
    let bounded = machine_in(Side::System, false, line).or(machine_in(
        Side::Environment,
        false,
        line,
    ));
    let unknown = unknown_in(Side::System, line).or(unknown_in(Side::Environment, line));
    least.or(bounded.or(unknown))
}

/// The verdict of a machine, where the line begins with the words for such a one.
fn machine_in(side: Side, least: bool, line: &[u8]) -> Option<Verdict>
    ensures { result ≡ machine_of_line side least line.now }
{
    let states = number_behind(line, machine_words(side, least))?;
    Some(Verdict::Machine {
        side,
        states,
        least,
    })
}

/// The verdict that names a log of this side.
fn unknown_in(side: Side, line: &[u8]) -> Option<Verdict>
    ensures { result ≡ unknown_of_line side line.now }
{
    let size = number_behind(line, unknown_words(side))?;
    Some(Verdict::Unknown(Some(Place { side, size })))
}
