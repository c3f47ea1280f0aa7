use crate::line_rules::cut_word;
use shown_text::push_shown;
use std::alloc::{AllocError, Global};

/// The most names of inputs, and of outputs, that are heard.
const MOST_NAMES: usize = 64;

/// The names of a printed circuit's signals, as its lines have them, and whether the text was converted to another kind.
#[derive(Drop)]
pub(crate) struct SignalNames {
    alloc: Global,
    inputs: Vec<String>,
    outputs: Vec<String>,
    is_converted: bool,
    /// Whether the circuit's comment has begun, in which no names stand.
    is_ended: bool,
}

impl SignalNames {
    pub(crate) fn new(alloc: Global) -> SignalNames {
        SignalNames {
            alloc,
            inputs: Vec::new(alloc),
            outputs: Vec::new(alloc),
            is_converted: false,
            is_ended: false,
        }
    }

    pub(crate) fn inputs(&self) -> &[String] {
        &self.inputs
    }

    pub(crate) fn outputs(&self) -> &[String] {
        &self.outputs
    }

    /// Whether the document says that the text was converted.
    pub(crate) fn is_converted(&self) -> bool {
        self.is_converted
    }

    /// Hears a line of a document without its end.
    pub(crate) fn hear(&mut self, line: &[u8]) -> Result<(), AllocError> {
        if self.is_ended {
            self.is_converted = self.is_converted || line.starts_with(b"semantics ");
        } else if line == b"c".as_slice() {
            self.is_ended = true;
        } else if let Some(name) = name_behind(line, b'i') {
            push_name(self.alloc, name, &mut self.inputs)?;
        } else if let Some(name) = name_behind(line, b'o') {
            push_name(self.alloc, name, &mut self.outputs)?;
        }
        Ok(())
    }
}

/// The name in a line `i0 NAME` or `o0 NAME`, by the letter.
fn name_behind(line: &[u8], letter: u8) -> Option<&[u8]> {
    let (word, name) = cut_word(line);
    let (first, number) = word.split_first()?;
    let is_number = !number.is_empty() && number.iter().all(|byte| byte.is_ascii_digit());
    if *first == letter && is_number {
        Some(name)
    } else {
        None
    }
}

/// Keeps a name as it may be shown.
fn push_name(alloc: Global, name: &[u8], names: &mut Vec<String>) -> Result<(), AllocError> {
    if names.len() < MOST_NAMES {
        let mut shown = String::new(alloc);
        push_shown(alloc, name, &mut shown)?;
        names.push(shown)?;
    }
    Ok(())
}
