use crate::binding::push_binding;
use crate::formulas::Text;
use crate::rules::{push_constant, push_first_step, push_one_sided, push_unread, push_windows};
use std::alloc::{AllocError, Global};
use tlsf_tokens::Token;

/// What a line of a text says that is seldom meant.
#[derive(Drop)]
pub struct Lint {
    /// The number of the line, from 1.
    pub line: u64,
    pub text: String,
}

/// The most that is said of a text.
const MOST_LINTS: usize = 100;

/// What was found so far.
#[derive(Drop)]
pub(crate) struct Found {
    pub(crate) alloc: Global,
    lints: Vec<Lint>,
}

impl Found {
    /// Adds what is said of the line of some tokens.
    pub(crate) fn add(
        &mut self,
        text: &Text<'_>,
        tokens: &[Token],
        said: String,
    ) -> Result<(), AllocError> {
        if self.lints.len() < MOST_LINTS {
            self.lints.push(Lint {
                line: text.line(tokens),
                text: said,
            })?;
        }
        Ok(())
    }
}

/// What a text says that is legal and seldom meant: first of its signals, then of its formulas in their order, a hundred things at most.
pub fn lint_of(alloc: Global, bytes: &[u8]) -> Result<Vec<Lint>, AllocError> {
    let text = Text::new(alloc, bytes)?;
    let mut found = Found {
        alloc,
        lints: Vec::new(alloc),
    };
    if text.is_whole() {
        push_unread(&text, &text.inputs, "input", &mut found)?;
        push_unread(&text, &text.outputs, "output", &mut found)?;
        let formulas = text.formulas(alloc)?;
        for formula in &formulas {
            push_binding(&text, formula.tokens, &mut found)?;
            push_windows(&text, formula.tokens, &mut found)?;
            push_constant(&text, *formula, &mut found)?;
            push_first_step(&text, *formula, &mut found)?;
            push_one_sided(&text, *formula, &mut found)?;
        }
    }
    Ok(found.lints)
}
