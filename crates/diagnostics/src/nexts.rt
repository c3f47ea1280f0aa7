//! Commands that may go further, made from the words of one that didn't.

use std::alloc::AllocError;
use std::fmt::Write;

/// Options that go further than a command did.
#[derive(Clone, Copy)]
pub(crate) struct Next {
    /// A greater `--max`.
    pub(crate) max: Option<u32>,
    /// Whether counts are to be bounded locally.
    pub(crate) is_local: bool,
    /// Another limit of entries, or that there is none.
    pub(crate) entries: Option<Option<u64>>,
    /// More seconds.
    pub(crate) seconds: Option<u32>,
    /// Whether machines are to be Mealy ones.
    pub(crate) is_mealy: bool,
}

impl Next {
    pub(crate) const NOTHING: Next = Next {
        max: None,
        is_local: false,
        entries: None,
        seconds: None,
        is_mealy: false,
    };

    /// Mealy machines in place of Moore machines.
    pub(crate) const MEALY: Next = Next {
        is_mealy: true,
        ..Next::NOTHING
    };

    pub(crate) fn is_nothing(self) -> bool {
        self.max.is_none()
            && !self.is_local
            && self.entries.is_none()
            && self.seconds.is_none()
            && !self.is_mealy
    }

    /// Whether a word is an option to which another value is given.
    fn replaces(self, word: &str) -> bool {
        let (name, _) = word.split_once('=').unwrap_or((word, ""));
        match name {
            "--max" => self.max.is_some(),
            "--counts" => self.is_local,
            "--entries" => self.entries.is_some(),
            "--seconds" => self.seconds.is_some(),
            "--kind" => self.is_mealy,
            _ => false,
        }
    }

    /// Appends the options.
    fn push_to(self, out: &mut String) -> Result<(), AllocError> {
        if let Some(max) = self.max {
            write!(out, " --max {max}")?;
        }
        if self.is_local {
            out.push_str(" --counts local")?;
        }
        match self.entries {
            Some(Some(entries)) => write!(out, " --entries {entries}")?,
            Some(None) => out.push_str(" --entries none")?,
            None => {},
        }
        if let Some(seconds) = self.seconds {
            write!(out, " --seconds {seconds}")?;
        }
        if self.is_mealy {
            out.push_str(" --kind mealy")?;
        }
        Ok(())
    }
}

/// Appends, behind what it is for, a line with the words of a command and options that go further, where there are some. Where a shell can't be
/// given the words, the options stand alone.
pub(crate) fn push_next(
    purpose: &str,
    command: &[&str],
    next: Next,
    out: &mut String,
) -> Result<(), AllocError> {
    if next.is_nothing() {
        return Ok(());
    }
    write!(out, "  {purpose}:")?;
    if can_be_given(command) {
        out.push_str(" boundsyn")?;
        push_kept(command, next, out)?;
    } else {
        out.push_str(" the same words with")?;
    }
    next.push_to(out)?;
    out.push('\n')
}

/// Appends that no command goes further.
pub(crate) fn push_too_large(out: &mut String) -> Result<(), AllocError> {
    out.push_str(
        "  no option goes further: docs/WRITING.md, \"A text that is too large\", says what makes texts large, and how to write them smaller\n",
    )
}

/// Appends the words behind the program's name but those options that are given other values.
fn push_kept(command: &[&str], next: Next, out: &mut String) -> Result<(), AllocError> {
    let mut is_value = false;
    for word in command.iter().skip(1) {
        let is_replaced = !is_value && next.replaces(word);
        if !is_value && !is_replaced {
            push_quoted(word, out)?;
        }
        is_value = is_replaced && !word.contains('=');
    }
    Ok(())
}

/// Appends a word as a shell takes it.
fn push_quoted(word: &str, out: &mut String) -> Result<(), AllocError> {
    if is_plain(word) {
        write!(out, " {word}")
    } else {
        write!(out, " '{word}'")
    }
}

/// Whether a shell can be given the words behind the program's name, in quotes where that is needed.
fn can_be_given(command: &[&str]) -> bool {
    command.iter().skip(1).all(|word| can_be_quoted(word))
}

fn can_be_quoted(word: &str) -> bool {
    word.bytes().all(|byte| byte != b'\'' && (byte == b' ' || byte.is_ascii_graphic()))
}

/// Whether a shell takes a word as it is.
pub(crate) fn is_plain(word: &str) -> bool {
    !word.is_empty()
        && word.bytes().all(|byte| byte.is_ascii_alphanumeric() || b"_./=,:+@-".contains(&byte))
}
