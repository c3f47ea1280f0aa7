use std::alloc::{AllocError, Global};
use tlsf_tokens::{Section, Symbol, Token, TokenList, tokens};

/// A formula of a section by its tokens, without the `;` behind it.
#[derive(Clone, Copy)]
pub(crate) struct Formula<'t> {
    pub(crate) section: Section,
    pub(crate) tokens: &'t [Token],
}

/// The most parameters that are looked at.
const MOST_PARAMETERS: usize = 64;

/// The bytes of a text with its tokens, and what it declares.
#[derive(Drop)]
pub(crate) struct Text<'a> {
    bytes: &'a [u8],
    list: TokenList,
    /// The tokens in the braces of INPUTS.
    pub(crate) inputs: Vec<Token>,
    /// Those in the braces of OUTPUTS.
    pub(crate) outputs: Vec<Token>,
    /// The names of parameters that are given as numbers, with the tokens of these.
    parameters: Vec<(Token, Token)>,
}

impl<'a> Text<'a> {
    pub(crate) fn new(alloc: Global, bytes: &'a [u8]) -> Result<Text<'a>, AllocError> {
        let list = tokens(alloc, bytes)?;
        let inputs = inside_block(alloc, &list.tokens, Symbol::Inputs)?;
        let outputs = inside_block(alloc, &list.tokens, Symbol::Outputs)?;
        let parameters = parameters(alloc, &list.tokens)?;
        Ok(Text {
            bytes,
            list,
            inputs,
            outputs,
            parameters,
        })
    }

    pub(crate) fn is_whole(&self) -> bool {
        self.list.stop.is_none()
    }

    pub(crate) fn tokens(&self) -> &[Token] {
        &self.list.tokens
    }

    /// What is written from the first of some tokens to the last.
    pub(crate) fn written(&self, tokens: &[Token]) -> &'a str {
        let (Some(first), Some(last)) = (tokens.first(), tokens.last()) else {
            return "";
        };
        let bytes: &'a [u8] = self.bytes;
        let written = bytes
            .get(first.start as usize..last.end as usize)
            .unwrap_or(b"");
        str::from_utf8(written).unwrap_or("")
    }

    pub(crate) fn word(&self, token: Token) -> &'a str {
        self.written(&[token])
    }

    /// The number of the line, from 1, in which the first of some tokens begins.
    pub(crate) fn line(&self, tokens: &[Token]) -> u64 {
        let Some(first) = tokens.first() else {
            return 1;
        };
        let before = self.bytes.get(..first.start as usize).unwrap_or(b"");
        let mut line = 1u64;
        for byte in before {
            if *byte == b'\n' {
                line = line.saturating_add(1);
            }
        }
        line
    }

    /// The formulas of the six sections in their order.
    pub(crate) fn formulas(&self, alloc: Global) -> Result<Vec<Formula<'_>>, AllocError> {
        let tokens: &[Token] = &self.list.tokens;
        let mut found = Vec::new(alloc);
        let mut section = None;
        let mut start = 0usize;
        let mut last = Symbol::Semicolon;
        for (place, token) in tokens.iter().enumerate() {
            let next = place.saturating_add(1);
            match (section, token.symbol) {
                (_, Symbol::Section(of)) => {
                    section = Some(of);
                    start = place.saturating_add(2);
                },
                (Some(section), Symbol::Semicolon) => {
                    let tokens = tokens.get(start..place).unwrap_or(&[]);
                    found.push(Formula { section, tokens })?;
                    start = next;
                },
                (Some(_), Symbol::CloseBrace) if last == Symbol::Semicolon => section = None,
                _ => {},
            }
            last = token.symbol;
        }
        Ok(found)
    }

    /// Whether one of some tokens is a name that stands in the braces of a block.
    pub(crate) fn speaks_of(&self, tokens: &[Token], block: &[Token]) -> bool {
        for token in tokens {
            let is_name = token.symbol == Symbol::Ident;
            if is_name && self.count(block, self.word(*token)) > 0 {
                return true;
            }
        }
        false
    }

    /// How many of some tokens are that name.
    pub(crate) fn count(&self, tokens: &[Token], word: &str) -> u64 {
        let mut count = 0u64;
        for token in tokens {
            if token.symbol == Symbol::Ident && self.word(*token) == word {
                count = count.saturating_add(1);
            }
        }
        count
    }

    /// The number that a token is, or that the parameter of that name is given as.
    pub(crate) fn number(&self, token: Token) -> Option<u64> {
        let word = self.word(token);
        if token.symbol == Symbol::Number {
            return word.parse::<u64>().ok();
        }
        for (name, value) in &self.parameters {
            if self.word(*name) == word {
                return self.word(*value).parse::<u64>().ok();
            }
        }
        None
    }
}

/// The tokens in the braces of a block without braces of its own.
fn inside_block(alloc: Global, tokens: &[Token], block: Symbol) -> Result<Vec<Token>, AllocError> {
    let mut inside = Vec::new(alloc);
    let mut is_inside = false;
    for token in tokens {
        if token.symbol == block {
            is_inside = true;
        } else if token.symbol == Symbol::CloseBrace {
            is_inside = false;
        } else if is_inside {
            inside.push(*token)?;
        }
    }
    Ok(inside)
}

/// The first parameters that are given as numbers.
fn parameters(alloc: Global, tokens: &[Token]) -> Result<Vec<(Token, Token)>, AllocError> {
    let mut found = Vec::new(alloc);
    for four in tokens.windows(4) {
        let [name, assign, value, end] = four else {
            continue;
        };
        let is_given = name.symbol == Symbol::Ident
            && assign.symbol == Symbol::Assign
            && value.symbol == Symbol::Number
            && end.symbol == Symbol::Semicolon;
        if is_given && found.len() < MOST_PARAMETERS {
            found.push((*name, *value))?;
        }
    }
    Ok(found)
}

/// Whether a symbol speaks of other steps than the one at hand.
pub(crate) fn is_temporal(symbol: Symbol) -> bool {
    matches!(
        symbol,
        Symbol::Globally | Symbol::Finally | Symbol::Until | Symbol::Release | Symbol::WeakUntil
    )
}

/// Whether one of some tokens has that symbol.
pub(crate) fn has(tokens: &[Token], symbol: Symbol) -> bool {
    tokens.iter().any(|token| token.symbol == symbol)
}

/// Whether a name stands before parentheses among some tokens: a call, of which tokens don't tell what it means.
pub(crate) fn has_call(tokens: &[Token]) -> bool {
    tokens.windows(2).any(|two| match two {
        [name, next] => name.symbol == Symbol::Ident && next.symbol == Symbol::OpenParen,
        _ => false,
    })
}

/// How much deeper the brackets are behind a symbol, and how much less deep.
pub(crate) fn bracket(symbol: Symbol) -> (u64, u64) {
    match symbol {
        Symbol::OpenParen | Symbol::OpenBracket | Symbol::OpenBrace => (1, 0),
        Symbol::CloseParen | Symbol::CloseBracket | Symbol::CloseBrace => (0, 1),
        _ => (0, 0),
    }
}

/// The places among some tokens, outside all their brackets, of the operators between two formulas.
pub(crate) fn joints(alloc: Global, tokens: &[Token]) -> Result<Vec<usize>, AllocError> {
    let mut found = Vec::new(alloc);
    let mut depth = 0u64;
    let mut last = Symbol::OpenParen;
    for (place, token) in tokens.iter().enumerate() {
        let (more, less) = bracket(token.symbol);
        let is_big = matches!(last, Symbol::And | Symbol::Or)
            && token.symbol == Symbol::OpenBracket;
        if is_big {
            let _ = found.pop();
        }
        depth = depth.saturating_add(more).saturating_sub(less);
        if depth == 0 && is_joint(token.symbol) {
            found.push(place)?;
        }
        last = token.symbol;
    }
    Ok(found)
}

fn is_joint(symbol: Symbol) -> bool {
    matches!(
        symbol,
        Symbol::And
            | Symbol::Or
            | Symbol::Implies
            | Symbol::Equiv
            | Symbol::Until
            | Symbol::Release
            | Symbol::WeakUntil
    )
}
