use crate::around::Around;
use crate::excerpts::push_marked;
use crate::notes::push_note;
use crate::places::Place;
use crate::sentences::{fixed_sentence, push_sentence};
use shown_text::push_shown;
use spec_faults::SpecCode;
use std::alloc::{AllocError, Global};
use std::fmt::Write;
use tlsf_tokens::{Section, Symbol, Token, tokens};

/// A file by its name as it may be shown, and what was kept of it.
#[derive(Clone, Copy)]
pub struct Source<'a> {
    pub name: &'a str,
    pub bytes: &'a [u8],
    /// Whether that is all of its bytes.
    pub is_whole: bool,
}

/// Which command refuses a text, as far as a message goes by it.
#[derive(Clone, Copy, PartialEq, Eq)]
pub enum RefusedBy {
    /// `solve`, which takes the largest texts, or a command that takes what it takes.
    Solve,
    /// A command that searches for machines, where `solve` may take the text.
    Search,
    /// `core`, which takes what `synth` takes, and in place of which there is no other command.
    Core,
    Other,
}

impl RefusedBy {
    /// By the words of the command, its program's name among them.
    pub fn of(words: &[String]) -> RefusedBy {
        if words.iter().skip(2).any(|word| word.as_str() == "--solve") {
            return RefusedBy::Solve;
        }
        match words.get(1).map(|word| word.as_str()) {
            Some("solve") => RefusedBy::Solve,
            Some("synth" | "batch") => RefusedBy::Search,
            Some("core") => RefusedBy::Core,
            _ => RefusedBy::Other,
        }
    }
}

/// A fault of a text, and the byte at which it stands.
#[derive(Clone, Copy)]
pub struct TextFault {
    pub code: SpecCode,
    pub place: u64,
}

impl TextFault {
    /// Whether it is a fault of the text as a whole. At the first byte of a text stands none of these.
    fn is_of_whole(self) -> bool {
        match self.code {
            SpecCode::TooLong => true,
            SpecCode::TooManyNodes
            | SpecCode::AutomatonTooLarge
            | SpecCode::ExpandTooLong
            | SpecCode::TooManyGuarantees => self.place == 0,
            _ => false,
        }
    }
}

/// Appends the message of a refused text: where it is refused, why, the line with a mark, and a note at a usual slip.
pub fn push_text_fault(
    alloc: Global,
    source: Source<'_>,
    fault: TextFault,
    by: RefusedBy,
    out: &mut String,
) -> Result<(), AllocError> {
    let TextFault { code, place } = fault;
    let name = source.name;
    let number = code.number();
    let word = code.name();
    let around = Around::new(alloc, source.bytes, place)?;
    if fault.is_of_whole() || !source.is_whole {
        writeln!(
            out,
            "{name}: error {number} {word}: {}",
            fixed_sentence(code, by)
        )?;
        return push_note(alloc, &around, code, by, out);
    }
    let place = Place::new(source.bytes, place as usize);
    let line = place.line;
    let column = place.column();
    write!(out, "{name}:{line}:{column}: error {number} {word}: ")?;
    push_sentence(alloc, &around, code, by, out)?;
    out.push('\n')?;
    push_marked(alloc, place, out)?;
    push_note(alloc, &around, code, by, out)
}

/// Appends a formula of the section GUARANTEE as it is written, by its number from 1: the file, the line, and the formula's first line.
pub fn push_formula(
    alloc: Global,
    source: Source<'_>,
    number: u64,
    out: &mut String,
) -> Result<(), AllocError> {
    let name = source.name;
    let list = tokens(alloc, source.bytes)?;
    let Some((start, end)) = guarantee(&list.tokens, number) else {
        return Ok(());
    };
    let line = Place::new(source.bytes, start as usize).line;
    let formula = source
        .bytes
        .get(start as usize..end as usize)
        .unwrap_or(b"");
    let first = formula.split(|byte| *byte == b'\n').next().unwrap_or(b"");
    write!(out, "{name}:{line}: ")?;
    push_shown(alloc, first, out)?;
    out.push('\n')
}

/// Where the formula of that number, from 1, of the section GUARANTEE begins and ends.
fn guarantee(tokens: &[Token], number: u64) -> Option<(u64, u64)> {
    let behind = tokens
        .iter()
        .skip_while(|token| token.symbol != Symbol::Section(Section::Guarantee))
        .skip(2);
    let mut formula = 1u64;
    let mut start = None;
    for token in behind {
        if token.symbol == Symbol::Semicolon {
            if formula == number {
                return Some((start?, token.end));
            }
            formula = formula.saturating_add(1);
            start = None;
        } else if start.is_none() {
            start = Some(token.start);
        }
    }
    None
}
