//! The formulas of a text, section by section, as text.

ghost use Rattle.flat_lines.specs.FlatLines.{CanBeWritten};
ghost use Rattle.tlsf_expand.specs.FlatText.{spec_seen};

use crate::beside::Taken;
use crate::shifted::{shifted_lines, shifted_names};
use flat_lines::put_flat;
use input_output::PlainSink;
use machine_table::Text;
use std::alloc::{AllocError, Global};
use tlsf_expand::Spec;

/// The lines of a flat text that stand before its formulas.
const LINES_BEFORE: usize = 3;

/// A section by the word that stands before its formulas in a flat text, behind which no other line begins so, and by its word in TLSF.
#[derive(Clone, Copy)]
pub(crate) struct SectionWords {
    front: &'static [u8],
    word: &'static str,
}

pub(crate) const INITIALLY: SectionWords = SectionWords {
    front: b"initially ",
    word: "INITIALLY",
};

pub(crate) const PRESET: SectionWords = SectionWords {
    front: b"preset ",
    word: "PRESET",
};

pub(crate) const REQUIRE: SectionWords = SectionWords {
    front: b"require ",
    word: "REQUIRE",
};

pub(crate) const ASSERT: SectionWords = SectionWords {
    front: b"assert ",
    word: "ASSERT",
};

pub(crate) const ASSUME: SectionWords = SectionWords {
    front: b"assume ",
    word: "ASSUME",
};

pub(crate) const GUARANTEE: SectionWords = SectionWords {
    front: b"guarantee ",
    word: "GUARANTEE",
};

/// A line for each formula of a text, behind the word of its section.
#[derive(Drop)]
pub(crate) struct FlatLines {
    lines: Vec<String>,
}

impl FlatLines {
    pub(crate) fn of(alloc: Global, taken: &Taken) -> Result<FlatLines, AllocError>
        requires { CanBeWritten (spec_seen taken.now.spec) }
    {
        let lines = lines_of(alloc, &taken.spec)?;
        if taken.shift.is_none() {
            return Ok(FlatLines { lines });
        }
        let names = shifted_names(alloc, taken)?;
        Ok(FlatLines {
            lines: shifted_lines(alloc, &lines, &names)?,
        })
    }

    pub(crate) fn into_lines(self) -> Vec<String> {
        self.lines
    }

    pub(crate) fn has(&self, section: SectionWords) -> bool {
        self.lines
            .iter()
            .any(|line| line.as_bytes().starts_with(section.front))
    }

    /// Puts a section, where it has formulas.
    pub(crate) fn put_section(&self, section: SectionWords, out: &mut Text) {
        if self.has(section) {
            put_opened(section, out);
            self.put_formulas(section, "", "", out);
            out.put("  }\n");
        }
    }

    /// Puts a line for each formula of a section, between these.
    pub(crate) fn put_formulas(
        &self,
        section: SectionWords,
        before: &str,
        behind: &str,
        out: &mut Text,
    ) {
        for line in &self.lines {
            if let Some(formula) = line.as_bytes().strip_prefix(section.front) {
                out.put("    ");
                out.put(before);
                out.put_bytes(formula);
                out.put(behind);
                out.put(";\n");
            }
        }
    }
}

pub(crate) fn put_opened(section: SectionWords, out: &mut Text) {
    out.put("  ");
    out.put(section.word);
    out.put(" {\n");
}

fn lines_of(alloc: Global, spec: &Spec) -> Result<Vec<String>, AllocError>
    requires { CanBeWritten (spec_seen spec.now) }
{
    let mut sink = PlainSink::new(alloc);
    if put_flat(alloc, spec, &mut sink).is_err() {
        return Err(AllocError);
    }
    let mut lines = Vec::new(alloc);
    for line in sink.bytes().split(|byte| *byte == b'\n').skip(LINES_BEFORE) {
        if !line.is_empty() {
            lines.push(string_of(alloc, line)?)?;
        }
    }
    Ok(lines)
}

fn string_of(alloc: Global, bytes: &[u8]) -> Result<String, AllocError> {
    let mut text = String::new(alloc);
    for byte in bytes {
        text.push(char::from(*byte))?;
    }
    Ok(text)
}
