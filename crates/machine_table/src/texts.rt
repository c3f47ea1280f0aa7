//! A text that is being written.

use crate::faults::ShowFault;
use names_and_numbers::push_number;
use std::alloc::Global;

/// The most bytes of a text: 64 MB.
const MOST_BYTES: usize = 64_000_000;

/// A text. Where it would grow too long, or memory runs out, that is kept, and what comes behind is left out.
#[derive(Drop)]
pub struct Text {
    bytes: Vec<u8>,
    fault: Option<ShowFault>,
}

/// What stands for a mark in a form.
#[derive(Clone, Copy)]
pub enum Part<'a> {
    Word(&'a str),
    Number(u64),
}

impl Text {
    pub fn new(alloc: Global) -> Text {
        Text {
            bytes: Vec::new(alloc),
            fault: None,
        }
    }

    /// Whether nothing more is taken.
    pub fn is_cut(&self) -> bool {
        self.fault.is_some()
    }

    pub fn len(&self) -> usize {
        self.bytes.len()
    }

    pub fn put(&mut self, text: &str) {
        self.put_bytes(text.as_bytes());
    }

    pub fn put_bytes(&mut self, bytes: &[u8]) {
        if self.fault.is_some() {
            return;
        }
        if self.bytes.len().saturating_add(bytes.len()) > MOST_BYTES {
            self.fault = Some(ShowFault::TooLong);
            return;
        }
        if self.bytes.extend_from_slice(bytes).is_err() {
            self.fault = Some(ShowFault::NoMemory);
        }
    }

    pub fn put_number(&mut self, number: u64) {
        if self.fault.is_none() && push_number(&mut self.bytes, number).is_err() {
            self.fault = Some(ShowFault::NoMemory);
        }
    }

    /// Puts a form with these parts in place of its marks `{}`, one after the other.
    pub fn fill(&mut self, form: &str, parts: &[Part<'_>]) {
        for (place, piece) in form.split("{}").enumerate() {
            if place > 0 {
                self.put_part(parts.get(place.saturating_sub(1)).copied());
            }
            self.put(piece);
        }
    }

    fn put_part(&mut self, part: Option<Part<'_>>) {
        match part {
            Some(Part::Word(word)) => self.put(word),
            Some(Part::Number(number)) => self.put_number(number),
            None => {}
        }
    }

    pub fn put_blanks(&mut self, count: usize) {
        for _ in 0..count {
            if self.is_cut() {
                break;
            }
            self.put(" ");
        }
    }

    /// The whole text, or why it has none.
    pub fn finish(self) -> Result<Vec<u8>, ShowFault> {
        match self.fault {
            None => Ok(self.bytes),
            Some(fault) => Err(fault),
        }
    }
}
