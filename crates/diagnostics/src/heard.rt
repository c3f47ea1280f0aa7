use crate::line_rules::cut_word;
use crate::signal_names::SignalNames;
use crate::text_faults::TextFault;
use outcome_news::Told;
use spec_faults::SpecCode;
use std::alloc::{AllocError, Global};

/// What was heard of the answer to one text, as far as a message may need it.
#[derive(Clone, Copy)]
pub(crate) struct Answer {
    /// The fault of the text. No value comes of it: it is read from the line of the refusal that was written.
    pub(crate) fault: Option<TextFault>,
    /// The bad line of another file, read in the same way.
    pub(crate) line: Option<u64>,
    /// What was told of the answer.
    pub(crate) told: Option<Told>,
    /// Whether it was said at once that something is found.
    pub(crate) is_announced: bool,
}

impl Answer {
    const NOTHING: Answer = Answer {
        fault: None,
        line: None,
        told: None,
        is_announced: false,
    };

    /// Hears a line without its end.
    fn hear(&mut self, line: &[u8]) {
        let (word, rest) = cut_word(line);
        if word == b"refused".as_slice() {
            self.hear_refusal(rest);
        }
    }

    fn hear_refusal(&mut self, rest: &[u8]) {
        let (word, behind) = cut_word(rest);
        if word == b"at".as_slice() {
            self.line = number_at(behind, 1);
        } else {
            self.fault = fault_of(number(word), number_at(behind, 2));
        }
    }
}

/// What was told of the answers of a run, in the order of its texts. Where memory lacks for that, nothing more is kept and `is_lost` says so.
#[derive(Drop)]
pub struct KeptTold {
    told: Vec<Told>,
    is_lost: bool,
}

impl KeptTold {
    pub fn new(alloc: Global) -> KeptTold {
        KeptTold {
            told: Vec::new(alloc),
            is_lost: false,
        }
    }

    pub fn keep(&mut self, told: Told) {
        if self.told.push(told).is_err() {
            self.is_lost = true;
        }
    }
}

/// What was heard of a run so far, as far as a message may need it. Where memory lacks for that, nothing more is heard.
#[derive(Drop)]
pub struct Heard {
    bytes: u64,
    answer: Answer,
    /// The signals of the one circuit that was written.
    signals: SignalNames,
    /// The answers of `batch`, in the order of its texts.
    texts: Vec<Answer>,
    /// How many lines of the last of them are still to come.
    rest: u64,
    is_batch: bool,
    is_lost: bool,
}

impl Heard {
    /// Nothing. A run of `batch` writes many answers, another one.
    pub fn new(alloc: Global, is_batch: bool) -> Heard {
        Heard {
            bytes: 0,
            answer: Answer::NOTHING,
            signals: SignalNames::new(alloc),
            texts: Vec::new(alloc),
            rest: 0,
            is_batch,
            is_lost: false,
        }
    }

    /// Hears a line with its end, which was written.
    pub fn hear(&mut self, line: &[u8]) {
        self.bytes = self.bytes.saturating_add(line.len() as u64);
        let line = line.strip_suffix(b"\n").unwrap_or(line);
        if !self.is_lost && self.hear_line(line).is_err() {
            self.is_lost = true;
        }
    }

    /// Hears what was told of the answers, once all were written, and whether it was said at once that something is found.
    pub fn tell(&mut self, kept: &KeptTold, is_announced: bool) {
        self.is_lost = self.is_lost || kept.is_lost;
        self.answer.is_announced = is_announced;
        if !self.is_batch {
            self.answer.told = kept.told.last().copied();
            return;
        }
        for (answer, told) in self.texts.iter_mut().zip(&kept.told) {
            answer.told = Some(*told);
        }
    }

    /// How many bytes were written.
    pub fn bytes(&self) -> u64 {
        self.bytes
    }

    /// Whether memory lacked for what was heard.
    pub(crate) fn is_lost(&self) -> bool {
        self.is_lost
    }

    pub(crate) fn answer(&self) -> Answer {
        self.answer
    }

    pub(crate) fn signals(&self) -> &SignalNames {
        &self.signals
    }

    pub(crate) fn texts(&self) -> &[Answer] {
        &self.texts
    }

    fn hear_line(&mut self, line: &[u8]) -> Result<(), AllocError> {
        if !self.is_batch {
            self.answer.hear(line);
            return self.signals.hear(line);
        }
        if self.rest > 0 {
            self.rest -= 1;
            if let Some(answer) = self.texts.last_mut() {
                answer.hear(line);
            }
            return Ok(());
        }
        let (word, rest) = cut_word(line);
        match word {
            b"text" => self.texts.push(Answer::NOTHING)?,
            b"lines" => self.rest = number(rest),
            b"refused" => self.answer.hear(line),
            _ => {},
        }
        Ok(())
    }
}

/// The number that a word is.
fn parsed(word: &[u8]) -> Option<u64> {
    str::from_utf8(word).ok()?.parse::<u64>().ok()
}

fn number(word: &[u8]) -> u64 {
    parsed(word).unwrap_or(0)
}

/// The number that stands behind so many words.
fn number_at(line: &[u8], place: usize) -> Option<u64> {
    parsed(line.split(|byte| *byte == b' ').nth(place)?)
}

/// The codes of the faults, by their numbers.
const CODES: [SpecCode; 20] = [
    SpecCode::TooLong,
    SpecCode::BadByte,
    SpecCode::Unexpected,
    SpecCode::Unclosed,
    SpecCode::Missing,
    SpecCode::Twice,
    SpecCode::UnknownName,
    SpecCode::WrongSort,
    SpecCode::IndexOut,
    SpecCode::ZeroDivisor,
    SpecCode::NumberRange,
    SpecCode::NoGuard,
    SpecCode::TooDeep,
    SpecCode::TooManyNodes,
    SpecCode::TooManySignals,
    SpecCode::TargetDiffers,
    SpecCode::Unsupported,
    SpecCode::AutomatonTooLarge,
    SpecCode::ExpandTooLong,
    SpecCode::TooManyGuarantees,
];

fn fault_of(number: u64, place: Option<u64>) -> Option<TextFault> {
    let code = CODES
        .iter()
        .find(|code| u64::from(code.number()) == number)?;
    Some(TextFault {
        code: *code,
        place: place?,
    })
}
