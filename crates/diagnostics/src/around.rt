use spec_faults::SpecCode;
use std::alloc::{AllocError, Global};
use tlsf_tokens::{Symbol, Token, TokenList, tokens};

/// The tokens of a text around a place.
#[derive(Drop)]
pub(crate) struct Around<'a> {
    pub(crate) text: &'a [u8],
    list: TokenList,
    place: u64,
    /// How many tokens begin before the place.
    count: usize,
    /// The brackets that are open at the place, by their places among the tokens, the outermost first.
    open: Vec<usize>,
}

impl<'a> Around<'a> {
    pub(crate) fn new(alloc: Global, text: &'a [u8], place: u64) -> Result<Around<'a>, AllocError> {
        let list = tokens(alloc, text)?;
        let count = list
            .tokens
            .iter()
            .take_while(|token| token.start < place)
            .count();
        let open = open_brackets(alloc, &list.tokens, count)?;
        Ok(Around {
            text,
            list,
            place,
            count,
            open,
        })
    }

    pub(crate) fn tokens(&self) -> &[Token] {
        &self.list.tokens
    }

    /// The token that begins at the place.
    pub(crate) fn found(&self) -> Option<Token> {
        self.ahead(0).filter(|token| token.start == self.place)
    }

    /// The token so many steps behind the first one that doesn't begin before the place.
    pub(crate) fn ahead(&self, steps: usize) -> Option<Token> {
        self.at(self.count.saturating_add(steps))
    }

    /// The last token but so many of those that begin before the place.
    pub(crate) fn back(&self, steps: usize) -> Option<Token> {
        self.at(self.count.checked_sub(steps)?.checked_sub(1)?)
    }

    fn at(&self, place: usize) -> Option<Token> {
        self.list.tokens.get(place).copied()
    }

    /// The symbol of the token at the place.
    pub(crate) fn symbol(&self) -> Option<Symbol> {
        Some(self.found()?.symbol)
    }

    /// The symbol of the last token but so many of those before the place.
    pub(crate) fn symbol_back(&self, steps: usize) -> Option<Symbol> {
        Some(self.back(steps)?.symbol)
    }

    /// The innermost bracket that is open at the place.
    pub(crate) fn opener(&self) -> Option<Token> {
        self.at(*self.open.last()?)
    }

    /// The token before the innermost bracket that is open at the place.
    pub(crate) fn before_opener(&self) -> Option<Token> {
        self.at(self.open.last()?.checked_sub(1)?)
    }

    /// The word before the innermost braces of a block that are open at the place. Nothing outside all blocks.
    pub(crate) fn block(&self) -> Option<Token> {
        let mut block = None;
        for place in &self.open {
            if let Some(word) = self.block_at(*place) {
                block = Some(word);
            }
        }
        block
    }

    /// The word of the block whose brace stands at that place among the tokens.
    fn block_at(&self, place: usize) -> Option<Token> {
        let word = self.at(place.checked_sub(1)?)?;
        let is_brace = self.at(place)?.symbol == Symbol::OpenBrace;
        if is_brace && is_block(word.symbol) {
            Some(word)
        } else {
            None
        }
    }

    /// Whether no token begins before the place.
    pub(crate) fn is_first(&self) -> bool {
        self.count == 0
    }

    /// Whether what stands before the place may end an expression.
    pub(crate) fn is_behind_operand(&self) -> bool {
        self.back(0).is_some_and(|token| ends_operand(token.symbol))
    }

    /// Whether a line ends between the token before the place and the place.
    pub(crate) fn is_on_new_line(&self) -> bool {
        let Some(token) = self.back(0) else {
            return false;
        };
        self.bytes(token.end, self.place).contains(&b'\n')
    }

    /// Whether the list of tokens ends for such a fault.
    pub(crate) fn stops_for(&self, code: SpecCode) -> bool {
        self.list.stop == Some(code)
    }

    pub(crate) fn word(&self, token: Token) -> &'a str {
        str::from_utf8(self.bytes(token.start, token.end)).unwrap_or("")
    }

    /// The word that begins at the place, or nothing.
    pub(crate) fn word_found(&self) -> &'a str {
        match self.found() {
            Some(token) => self.word(token),
            None => "",
        }
    }

    /// What stands from the place on.
    pub(crate) fn rest(&self) -> &'a [u8] {
        self.bytes(self.place, self.text.len() as u64)
    }

    /// Whether such a sign stands at the place, or begins with the token before it and goes over the place.
    pub(crate) fn is_in_sign(&self, sign: &[u8]) -> bool {
        let last = self.back(0);
        self.rest().starts_with(sign)
            || last.is_some_and(|token| {
                let behind = self.place.saturating_sub(token.start);
                behind < sign.len() as u64
                    && self
                        .bytes(token.start, self.text.len() as u64)
                        .starts_with(sign)
            })
    }

    /// The number of the line, from 1, in which a token begins.
    pub(crate) fn line(&self, token: Token) -> u64 {
        let before = self.bytes(0, token.start);
        let ends = before.iter().filter(|byte| **byte == b'\n').count() as u64;
        ends.saturating_add(1)
    }

    pub(crate) fn bytes(&self, start: u64, end: u64) -> &'a [u8] {
        let text: &'a [u8] = self.text;
        text.get(start as usize..end as usize).unwrap_or(b"")
    }
}

/// Whether a word stands before the braces of a block.
pub(crate) fn is_block(symbol: Symbol) -> bool {
    matches!(
        symbol,
        Symbol::Info
            | Symbol::Global
            | Symbol::Parameters
            | Symbol::Definitions
            | Symbol::Main
            | Symbol::Inputs
            | Symbol::Outputs
            | Symbol::Section(_)
    )
}

fn ends_operand(symbol: Symbol) -> bool {
    matches!(
        symbol,
        Symbol::Ident
            | Symbol::Number
            | Symbol::True
            | Symbol::False
            | Symbol::CloseParen
            | Symbol::CloseBracket
            | Symbol::CloseBrace
    )
}

/// The bracket that a bracket closes.
pub(crate) fn opener_of(symbol: Symbol) -> Option<Symbol> {
    match symbol {
        Symbol::CloseBrace => Some(Symbol::OpenBrace),
        Symbol::CloseParen => Some(Symbol::OpenParen),
        Symbol::CloseBracket => Some(Symbol::OpenBracket),
        _ => None,
    }
}

/// The brackets that are open behind the first tokens. One that closes another bracket than the innermost open one closes none.
fn open_brackets(alloc: Global, tokens: &[Token], count: usize) -> Result<Vec<usize>, AllocError> {
    let mut open: Vec<(usize, Symbol)> = Vec::new(alloc);
    for (place, token) in tokens.iter().enumerate().take(count) {
        if matches!(
            token.symbol,
            Symbol::OpenBrace | Symbol::OpenParen | Symbol::OpenBracket
        ) {
            open.push((place, token.symbol))?;
        } else if let Some(opener) = opener_of(token.symbol) {
            if open.last().is_some_and(|(_, symbol)| *symbol == opener) {
                let _ = open.pop();
            }
        }
    }
    open.iter().map(|(place, _)| *place).collect(alloc)
}
