use crate::around::Around;
use crate::nearest::Nearest;
use std::alloc::{AllocError, Global};
use tlsf_tokens::{Symbol, Token};

/// What a name is declared as, as far as tokens tell.
#[derive(Clone, Copy, PartialEq, Eq)]
pub(crate) enum Sort {
    Signal,
    Bus,
    /// A signal of an enumeration, whose name stands before it.
    Typed,
    Enumeration,
    Member,
    Parameter,
    Function,
}

/// A name where it is declared.
#[derive(Clone, Copy)]
pub(crate) struct Declared {
    pub(crate) sort: Sort,
    pub(crate) name: Token,
    /// The token before it.
    pub(crate) before: Token,
}

/// The names that a text declares, in their order, as far as the list of its tokens goes.
pub(crate) fn declarations(
    alloc: Global,
    around: &Around<'_>,
) -> Result<Vec<Declared>, AllocError> {
    let mut found = Vec::new(alloc);
    let mut block = Symbol::Info;
    let mut is_enum = false;
    for three in around.tokens().windows(3) {
        let [before, name, next] = three else {
            continue;
        };
        match before.symbol {
            Symbol::Inputs
            | Symbol::Outputs
            | Symbol::Section(_)
            | Symbol::Definitions
            | Symbol::Parameters => block = before.symbol,
            Symbol::Enum => is_enum = true,
            Symbol::Semicolon | Symbol::CloseBrace => is_enum = false,
            _ => {},
        }
        if name.symbol != Symbol::Ident {
            continue;
        }
        if let Some(sort) = sort_of(block, is_enum, before.symbol, next.symbol) {
            found.push(Declared {
                sort,
                name: *name,
                before: *before,
            })?;
        }
    }
    Ok(found)
}

/// What a name between two tokens is declared as, if it is.
fn sort_of(block: Symbol, is_enum: bool, before: Symbol, next: Symbol) -> Option<Sort> {
    // No `;` ends an enumeration.
    let is_behind_enum = is_enum && matches!(before, Symbol::Number | Symbol::Star);
    let is_start = matches!(before, Symbol::OpenBrace | Symbol::Semicolon) || is_behind_enum;
    match (block, next) {
        (Symbol::Inputs | Symbol::Outputs, Symbol::Semicolon) if is_start => Some(Sort::Signal),
        (Symbol::Inputs | Symbol::Outputs, Symbol::Semicolon) if before == Symbol::Ident => {
            Some(Sort::Typed)
        },
        (Symbol::Inputs | Symbol::Outputs, Symbol::OpenBracket) if is_start => Some(Sort::Bus),
        (Symbol::Definitions, Symbol::Assign) if before == Symbol::Enum => Some(Sort::Enumeration),
        (Symbol::Definitions, Symbol::Colon) if is_enum => Some(Sort::Member),
        (Symbol::Parameters | Symbol::Definitions, Symbol::Assign) if is_start => {
            Some(Sort::Parameter)
        },
        (Symbol::Definitions, Symbol::OpenParen) if is_start => Some(Sort::Function),
        _ => None,
    }
}

/// Where a name is declared first.
pub(crate) fn find(around: &Around<'_>, names: &[Declared], name: &str) -> Option<Declared> {
    names
        .iter()
        .find(|declared| around.word(declared.name) == name)
        .copied()
}

/// The declared name nearest to a word, if it is near.
pub(crate) fn nearest_declared<'a>(
    alloc: Global,
    around: &Around<'a>,
    names: &[Declared],
    word: &str,
) -> Result<Option<&'a str>, AllocError> {
    let mut nearest = Nearest::new(word);
    for declared in names {
        nearest.compare(alloc, around.word(declared.name))?;
    }
    Ok(nearest.found)
}
