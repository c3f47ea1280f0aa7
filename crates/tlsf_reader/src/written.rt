//! A text as it is written: its parts one after another, whether or not one is given twice.

use letters_and_lassos::Kind;
use names_and_numbers::Name;
use tlsf_syntax::{Declaration, Definition, Expr, Word};
use tlsf_tokens::Section;

/// A field of INFO. Texts stand without their quotes.
#[derive(Drop)]
pub(crate) enum Field {
    Title(Name),
    Description(Name),
    Semantics {
        kind: Kind,
        strict: bool,
    },
    Target {
        kind: Kind,
        /// The first byte of the value.
        at: u64,
    },
    Tags(Vec<Word>),
}

/// A part of GLOBAL.
#[derive(Drop)]
pub(crate) enum Block {
    Parameters(Vec<Definition>),
    Definitions(Vec<Definition>),
}

/// A part of MAIN.
#[derive(Drop)]
pub(crate) enum Part {
    Inputs(Vec<Declaration>),
    Outputs(Vec<Declaration>),
    Section {
        section: Section,
        formulas: Vec<Expr>,
    },
}

/// All parts of a text.
#[derive(Drop)]
pub(crate) struct Written {
    pub fields: Vec<Field>,
    pub blocks: Vec<Block>,
    pub parts: Vec<Part>,
}
