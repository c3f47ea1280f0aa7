use crate::around::{Around, is_block, opener_of};
use crate::declared::{Declared, Sort, declarations, find, nearest_declared};
use crate::nearest::Nearest;
use crate::slips::{FILES, FORMULA_SIGNS, NAME_FORM, OPERAND_SIGNS, RAW_FILES, SIGNS, WORDS};
use crate::text_faults::RefusedBy;
use shown_text::push_shown;
use spec_faults::SpecCode;
use std::alloc::{AllocError, Global};
use std::fmt::Write;
use tlsf_tokens::{Symbol, Token};

/// What a usual slip is, and what to write in its place: a sentence in which `%` stands for a word and `#` for a number, in their order.
#[derive(Clone, Copy)]
pub(crate) struct Note<'a> {
    text: &'static str,
    words: [&'a str; 2],
    numbers: [u64; 2],
}

impl<'a> Note<'a> {
    pub(crate) fn plain(text: &'static str) -> Note<'a> {
        Note::filled(text, ["", ""], [0, 0])
    }

    pub(crate) fn about(text: &'static str, word: &'a str) -> Note<'a> {
        Note::filled(text, [word, word], [0, 0])
    }

    pub(crate) fn filled(text: &'static str, words: [&'a str; 2], numbers: [u64; 2]) -> Note<'a> {
        Note {
            text,
            words,
            numbers,
        }
    }

    fn push(self, alloc: Global, out: &mut String) -> Result<(), AllocError> {
        let mut words = self.words.iter();
        let mut numbers = self.numbers.iter();
        out.push_str("  note: ")?;
        for character in self.text.chars() {
            match character {
                '%' => push_shown(alloc, words.next().unwrap_or(&"").as_bytes(), out)?,
                '#' => {
                    let number = *numbers.next().unwrap_or(&0);
                    write!(out, "{number}")?;
                },
                _ => out.push(character)?,
            }
        }
        out.push('\n')
    }
}

/// Appends a note where the fault at the place is a usual slip, and one where another command may take the text.
pub(crate) fn push_note(
    alloc: Global,
    around: &Around<'_>,
    code: SpecCode,
    by: RefusedBy,
    out: &mut String,
) -> Result<(), AllocError> {
    if let Some(note) = note_for(alloc, around, code, by)? {
        note.push(alloc, out)?;
    }
    match by {
        RefusedBy::Search => push_larger(code, out),
        RefusedBy::Solve | RefusedBy::Core | RefusedBy::Other => Ok(()),
    }
}

/// Appends that `solve` may take a text that a search refuses for its size.
fn push_larger(code: SpecCode, out: &mut String) -> Result<(), AllocError> {
    match code {
        SpecCode::TooManySignals => {
            out.push_str("  note: `solve` takes up to 16 inputs and up to 16 outputs\n")
        },
        SpecCode::TooManyNodes => {
            out.push_str("  note: `solve` takes formulas with up to 4,096 different parts\n")
        },
        SpecCode::AutomatonTooLarge => out.push_str(
            "  note: `solve` makes smaller automata of a text, and takes larger ones: up to 20,000 states and 2,000,000 edges\n",
        ),
        _ => Ok(()),
    }
}

fn note_for<'a>(
    alloc: Global,
    around: &Around<'a>,
    code: SpecCode,
    by: RefusedBy,
) -> Result<Option<Note<'a>>, AllocError> {
    let names = declarations(alloc, around)?;
    match code {
        SpecCode::WrongSort => Ok(sort_note(around, &names)),
        SpecCode::IndexOut => Ok(index_note(around, &names)),
        SpecCode::UnknownName => unknown_name(alloc, around, &names),
        SpecCode::Unexpected => unexpected(alloc, around, &names),
        SpecCode::BadByte => Ok(file_note(around).or(sign_note(around))),
        SpecCode::Unsupported if around.rest().starts_with(b"Finite") => Ok(Some(Note::plain(
            "words are infinite here: SEMANTICS is `Mealy` or `Moore`",
        ))),
        SpecCode::Unsupported => Ok(sign_note(around).or(word_note(around, &names))),
        SpecCode::TargetDiffers if by == RefusedBy::Core => Ok(Some(Note::plain(
            "`core` takes one kind, from `--kind mealy` or `--kind moore`",
        ))),
        SpecCode::TargetDiffers => Ok(Some(Note::plain(
            "`solve` takes both as TLSF means them; `synth` and `core` take one kind from `--kind mealy` or `--kind moore`",
        ))),
        SpecCode::AutomatonTooLarge => Ok(Some(Note::plain(
            "many formulas with F and U, and many assumptions, make automata large; fewer of them, and G without F, help",
        ))),
        _ => Ok(None),
    }
}

fn unexpected<'a>(
    alloc: Global,
    around: &Around<'a>,
    names: &[Declared],
) -> Result<Option<Note<'a>>, AllocError> {
    let note = file_note(around)
        .or(bracket_note(around))
        .or(info_note(around))
        .or(sign_note(around))
        .or(word_note(around, names));
    match note {
        Some(note) => Ok(Some(note)),
        None => match block_note(around) {
            Some(note) => Ok(Some(note)),
            None => section_note(alloc, around),
        },
    }
}

fn unknown_name<'a>(
    alloc: Global,
    around: &Around<'a>,
    names: &[Declared],
) -> Result<Option<Note<'a>>, AllocError> {
    if is_in_signals(around) {
        return Ok(Some(Note::plain(DECLARATIONS)));
    }
    if let Some(note) = word_note(around, names) {
        return Ok(Some(note));
    }
    let nearest = nearest_declared(alloc, around, names, around.word_found())?;
    Ok(nearest.map(|name| Note::about("the nearest name that is declared is `%`", name)))
}

fn is_in_signals(around: &Around<'_>) -> bool {
    around.block().is_some_and(|token| matches!(token.symbol, Symbol::Inputs | Symbol::Outputs))
}

fn is_in_formulas(around: &Around<'_>) -> bool {
    around
        .block()
        .is_some_and(|token| matches!(token.symbol, Symbol::Section(_)))
}

// == the file ==

/// The note on a file of another kind.
fn file_note<'a>(around: &Around<'a>) -> Option<Note<'a>> {
    if !around.is_first() {
        return None;
    }
    let rest = around.rest();
    let raw = RAW_FILES.iter().find(|(start, _)| rest.starts_with(start));
    if let Some((_, text)) = raw {
        return Some(Note::plain(text));
    }
    let file = FILES
        .iter()
        .find(|(start, _)| rest.starts_with(start.as_bytes()));
    if let Some((_, text)) = file {
        return Some(Note::plain(text));
    }
    match around.symbol() {
        None if rest.is_empty() => Some(Note::plain(
            "there is nothing to read: a text begins with INFO, and then come MAIN, INPUTS, OUTPUTS and GUARANTEE",
        )),
        Some(_) if is_formula(around) => Some(Note::plain(
            "this may be a formula alone: in a text it stands in `GUARANTEE { .. }` of MAIN, behind INFO, INPUTS and OUTPUTS",
        )),
        _ => None,
    }
}

/// Whether the text may begin with a formula.
fn is_formula(around: &Around<'_>) -> bool {
    let is_operator = |token: Option<Token>| {
        token.is_some_and(|token| matches!(
            token.symbol,
            Symbol::Globally
                | Symbol::Finally
                | Symbol::Next
                | Symbol::Not
                | Symbol::OpenParen
                | Symbol::And
                | Symbol::Or
                | Symbol::Implies
                | Symbol::Equiv
                | Symbol::Until
                | Symbol::Release
                | Symbol::WeakUntil
        ))
    };
    is_operator(around.ahead(0))
        || around.symbol() == Some(Symbol::Ident) && is_operator(around.ahead(1))
}

// == brackets and blocks ==

/// The note on brackets that don't match, or on a block that isn't closed before another one begins.
fn bracket_note<'a>(around: &Around<'a>) -> Option<Note<'a>> {
    let found = around.found();
    let Some(opener) = around.opener() else {
        let closer = found.filter(|token| opener_of(token.symbol).is_some())?;
        return Some(Note::about(
            "no bracket is open that `%` could close",
            around.word(closer),
        ));
    };
    match found {
        None if around.rest().is_empty() => Some(open_note(around, opener)),
        None => None,
        Some(token) => {
            let closed = opener_of(token.symbol);
            let is_end = closed.is_some() || token.symbol == Symbol::Semicolon;
            let is_open = matches!(opener.symbol, Symbol::OpenParen | Symbol::OpenBracket);
            if closed == Some(opener.symbol) {
                None
            } else if is_end && is_open || is_block_too_early(around, token) {
                Some(open_note(around, opener))
            } else {
                closed?;
                Some(Note::about(
                    "no bracket is open that `%` could close",
                    around.word(token),
                ))
            }
        },
    }
}

/// Whether a token is the word of a block that can't stand in the block that is open.
fn is_block_too_early(around: &Around<'_>, token: Token) -> bool {
    is_block(token.symbol)
        && around.block().is_some_and(|block| match block.symbol {
            Symbol::Global => matches!(token.symbol, Symbol::Main | Symbol::Info),
            Symbol::Main => matches!(token.symbol, Symbol::Global | Symbol::Info),
            _ => true,
        })
}

/// The note on a bracket that isn't closed.
fn open_note<'a>(around: &Around<'a>, opener: Token) -> Note<'a> {
    let line = around.line(opener);
    match around.before_opener() {
        Some(word) if is_block(word.symbol) => Note::filled(
            "the braces of % are open since line #: is a `}` missing?",
            [around.word(word), ""],
            [line, 0],
        ),
        _ => Note::filled(
            "the `%` in line # isn't closed before this",
            [around.word(opener), ""],
            [line, 0],
        ),
    }
}

// == INFO ==

/// The note on what can't stand in INFO.
fn info_note<'a>(around: &Around<'a>) -> Option<Note<'a>> {
    if around.block()?.symbol != Symbol::Info {
        return None;
    }
    let found = around.symbol()?;
    let is_text = |symbol| matches!(symbol, Some(Symbol::Title | Symbol::Description));
    if is_long_text(around) {
        return Some(Note::plain(
            "the text in quotes before this goes over lines: is a quote missing?",
        ));
    }
    Some(Note::plain(match (around.symbol_back(0), found) {
        (Some(Symbol::Colon), _) if is_text(around.symbol_back(1)) => {
            "a title and a description stand in quotes: `TITLE: \"wire\"`"
        },
        (Some(Symbol::Colon | Symbol::Comma), _) => {
            "a kind is `Mealy` or `Moore`, in SEMANTICS also with `, Strict` behind it"
        },
        (_, Symbol::Semicolon | Symbol::Comma) => "no sign stands between the fields of INFO",
        (_, Symbol::Assign | Symbol::Equal) => "a colon stands behind the name of a field",
        _ => "the fields of INFO are TITLE, DESCRIPTION, SEMANTICS, TARGET and TAGS, in capitals",
    }))
}

/// Whether a text in quotes that goes over lines stands before the place.
fn is_long_text(around: &Around<'_>) -> bool {
    around.back(0).is_some_and(|token| {
        token.symbol == Symbol::Text && around.word(token).contains('\n')
    })
}

// == signs and words ==

/// The note on the first of some signs that stands at the place.
fn sign_in<'a>(around: &Around<'a>, signs: &[(&'static str, &'static str)]) -> Option<Note<'a>> {
    let (_, text) = signs
        .iter()
        .find(|(sign, _)| around.is_in_sign(sign.as_bytes()))?;
    Some(Note::plain(text))
}

fn sign_note<'a>(around: &Around<'a>) -> Option<Note<'a>> {
    if around.found().is_none() && around.rest().starts_with(b".") {
        return Some(Note::plain(NAME_FORM));
    }
    let anywhere = sign_in(around, &SIGNS);
    if anywhere.is_some() || !is_in_formulas(around) {
        return anywhere;
    }
    if let Some(note) = range_note(around) {
        return Some(note);
    }
    if !around.is_behind_operand() {
        let rest = around.rest();
        let sign = OPERAND_SIGNS
            .iter()
            .find(|(sign, _)| rest.starts_with(sign.as_bytes()));
        if let Some((_, text)) = sign {
            return Some(Note::plain(text));
        }
    }
    let in_formulas = sign_in(around, &FORMULA_SIGNS);
    if in_formulas.is_none() && around.symbol() == Some(Symbol::Assign) {
        return Some(Note::plain("equality is written `==`, and of formulas `<->`"));
    }
    in_formulas
}

/// The note on what can't stand in the brackets behind an operator.
fn range_note<'a>(around: &Around<'a>) -> Option<Note<'a>> {
    let is_bracket = around.opener()?.symbol == Symbol::OpenBracket;
    let operator = around.before_opener()?.symbol;
    if !is_bracket {
        return None;
    }
    match operator {
        Symbol::And | Symbol::Or => Some(Note::plain(
            "what a conjunction goes over is written `[0 <= i < 4]` or `[i IN {0, 1 .. 3}]`, and of a disjunction too",
        )),
        Symbol::Finally | Symbol::Globally => Some(Note::plain(
            "a window is written `F[0:3]` or `G[0:3]`, with a colon",
        )),
        Symbol::Next => Some(Note::plain(
            "`X[2]` takes one number; a window is written `F[0:2]` or `G[0:2]`",
        )),
        _ => None,
    }
}

/// The note on a word that stands for something else than a name: the one at the place, or before it.
fn word_note<'a>(around: &Around<'a>, names: &[Declared]) -> Option<Note<'a>> {
    if !around.block().is_some_and(|block| matches!(
        block.symbol,
        Symbol::Section(_) | Symbol::Definitions
    )) {
        return None;
    }
    let candidates = [around.found(), around.back(0)];
    candidates
        .iter()
        .filter_map(|token| *token)
        .filter(|token| token.symbol == Symbol::Ident)
        .find_map(|token| meant(around, names, around.word(token)))
}

/// What a word may stand for that isn't declared.
fn meant<'a>(around: &Around<'a>, names: &[Declared], word: &'a str) -> Option<Note<'a>> {
    if find(around, names, word).is_some() {
        return None;
    }
    let known = WORDS.iter().find(|(name, _)| {
        *name == word || name.len() > 1 && name.eq_ignore_ascii_case(word)
    });
    if let Some((_, text)) = known {
        return Some(Note::plain(text));
    }
    if word.len() > 1 && word.bytes().all(|byte| matches!(byte, b'X' | b'F' | b'G')) {
        return Some(Note::about(
            "`%` is a name: each operator is a word of its own, as in `G F a`",
            word,
        ));
    }
    if let Some(name) = word.strip_suffix("'") {
        find(around, names, name)?;
        return Some(Note::about("the next step is written by X: `X %`", name));
    }
    let name = word.strip_prefix(['X', 'F', 'G'])?;
    find(around, names, name)?;
    let operator = word.get(..1)?;
    Some(Note::filled(
        "a blank stands between an operator and a name: `% %`",
        [operator, name],
        [0, 0],
    ))
}

// == sorts ==

fn sort_note<'a>(around: &Around<'a>, names: &[Declared]) -> Option<Note<'a>> {
    let found = around.found()?;
    let word = around.word(found);
    if found.symbol == Symbol::Number {
        return Some(Note::plain("truth and falsehood are written `true` and `false`"));
    }
    let declared = find(around, names, word)?;
    let behind = around.ahead(1).map(|token| token.symbol);
    match declared.sort {
        Sort::Bus => Some(Note::about("`%` is a bus: one of its bits is `%[0]`", word)),
        Sort::Typed => Some(Note::filled(
            "`%` is of the enumeration `%`: compare it with a member by `==`",
            [word, around.word(declared.before)],
            [0, 0],
        )),
        Sort::Member => Some(Note::about(
            "`%` is a member of an enumeration: compare a signal of that type with it by `==`",
            word,
        )),
        Sort::Signal => signal_note(around, word, behind),
        Sort::Function => function_note(around, declared, word),
        Sort::Parameter if behind == Some(Symbol::OpenParen) => {
            Some(Note::about("`%` is a parameter, and takes no arguments", word))
        },
        _ => None,
    }
}

/// The note on a single signal where something else is wanted.
fn signal_note<'a>(around: &Around<'a>, word: &'a str, behind: Option<Symbol>) -> Option<Note<'a>> {
    let second = around.ahead(2).map(|token| token.symbol);
    let text = match behind {
        Some(Symbol::Equal | Symbol::Unequal)
            if matches!(second, Some(Symbol::Number | Symbol::True | Symbol::False)) => {
            "`%` is true or false: write `%` or its negation"
        },
        Some(Symbol::Equal | Symbol::Unequal) => {
            "formulas are compared by `<->`; a signal that has members is declared with its type"
        },
        Some(Symbol::Minus) => NAME_FORM,
        Some(Symbol::OpenBracket) =>
            "`%` is a single signal; a bus is declared with its width, as in `%[4];`",
        Some(Symbol::OpenParen) => "`%` is a signal, and takes no arguments",
        _ => match around.opener().map(|token| token.symbol) {
            Some(Symbol::OpenBracket) => "a number is wanted here, and `%` is a signal",
            Some(Symbol::OpenBrace)
                if around
                    .before_opener()
                    .is_some_and(|token| !is_block(token.symbol)) => {
                "braces stand around sets of numbers, and parentheses around formulas"
            },
            _ => return None,
        },
    };
    Some(Note::about(text, word))
}

/// The note on how many arguments a function takes and is given.
fn function_note<'a>(around: &Around<'a>, declared: Declared, word: &'a str) -> Option<Note<'a>> {
    let taken = arguments(around.tokens(), declared.name);
    let given = arguments(around.tokens(), around.found()?);
    if taken == given {
        return None;
    }
    Some(Note::filled(
        "the number of arguments of `%` is #, and here it is #",
        [word, ""],
        [taken, given],
    ))
}

/// How many arguments stand in the parentheses behind a name.
fn arguments(tokens: &[Token], name: Token) -> u64 {
    let mut depth = 0u64;
    let mut count = 1u64;
    let behind = tokens.iter().skip_while(|token| token.start <= name.start);
    for (place, token) in behind.enumerate() {
        if place == 0 && token.symbol != Symbol::OpenParen {
            return 0;
        }
        match token.symbol {
            Symbol::OpenParen | Symbol::OpenBracket | Symbol::OpenBrace => {
                depth = depth.saturating_add(1);
            },
            Symbol::CloseParen | Symbol::CloseBracket | Symbol::CloseBrace => {
                depth = depth.saturating_sub(1);
                if depth == 0 {
                    return count;
                }
            },
            Symbol::Comma if depth == 1 => count = count.saturating_add(1),
            _ => {},
        }
    }
    count
}

/// The note on the width of the bus whose index is out.
fn index_note<'a>(around: &Around<'a>, names: &[Declared]) -> Option<Note<'a>> {
    let bus = around.before_opener()?;
    let declared = find(around, names, around.word(bus))?;
    if declared.sort != Sort::Bus {
        return None;
    }
    let behind = around
        .tokens()
        .iter()
        .skip_while(|token| token.start <= declared.name.start);
    let mut width = behind
        .skip(1)
        .take_while(|token| token.symbol != Symbol::CloseBracket);
    let first = width.next().copied()?;
    let last = width.last().copied().unwrap_or(first);
    let width = str::from_utf8(around.bytes(first.start, last.end)).unwrap_or("");
    Some(Note::filled(
        "`%` has the width % (line #), and its bits begin with 0",
        [around.word(bus), width],
        [around.line(declared.name), 0],
    ))
}

// == blocks ==

const DECLARATIONS: &str =
    "a signal is declared as `name;`, a bus of 4 bits as `name[4];`, and one of an enumeration as `Enumeration name;`";

/// The note on what can't stand in a block that has no blocks of its own.
fn block_note<'a>(around: &Around<'a>) -> Option<Note<'a>> {
    match around.block()?.symbol {
        Symbol::Inputs | Symbol::Outputs => declaration_note(around),
        Symbol::Parameters | Symbol::Definitions => definition_note(around),
        Symbol::Section(_) => formula_note(around),
        _ => brace_note(around),
    }
}

/// The note on a sign that can't stand at the braces of a block.
fn brace_note<'a>(around: &Around<'a>) -> Option<Note<'a>> {
    let last = around.back(0)?;
    if is_block(last.symbol) {
        return Some(Note::about(
            "the braces stand right behind the word: `% { .. }`",
            around.word(last),
        ));
    }
    if around.symbol()? == Symbol::Semicolon && last.symbol == Symbol::CloseBrace {
        return Some(Note::plain("no `;` stands behind the braces of a block"));
    }
    None
}

fn declaration_note<'a>(around: &Around<'a>) -> Option<Note<'a>> {
    let found = around.symbol()?;
    match found {
        Symbol::Minus => Some(Note::plain(NAME_FORM)),
        Symbol::CloseBrace | Symbol::Comma | Symbol::Ident => {
            Some(Note::plain("each signal ends with `;`"))
        },
        _ => reserved(around).or(Some(Note::plain(DECLARATIONS))),
    }
}

fn definition_note<'a>(around: &Around<'a>) -> Option<Note<'a>> {
    match around.symbol()? {
        Symbol::CloseBrace if around.is_behind_operand() => Some(Note::plain(DEFINITION_END)),
        _ if around.is_behind_operand() && around.is_on_new_line() => {
            Some(Note::plain(DEFINITION_END))
        },
        Symbol::Equal | Symbol::Colon if around.symbol_back(0) == Some(Symbol::Ident) => {
            Some(Note::plain(
                "`=` stands behind the name of a parameter, and behind the parentheses of a function",
            ))
        },
        _ => reserved(around),
    }
}

const DEFINITION_END: &str = "each parameter and each function ends with `;`";

fn formula_note<'a>(around: &Around<'a>) -> Option<Note<'a>> {
    let found = around.symbol()?;
    let is_end = matches!(
        found,
        Symbol::Semicolon | Symbol::CloseParen | Symbol::CloseBrace
    );
    if !around.is_behind_operand() {
        return if is_end {
            Some(Note::plain("a formula is missing before this"))
        } else {
            reserved(around)
        };
    }
    match found {
        Symbol::CloseBrace | Symbol::Comma => Some(Note::plain("each formula ends with `;`")),
        _ if around.is_on_new_line() => Some(Note::plain("each formula ends with `;`")),
        Symbol::Ident | Symbol::Not | Symbol::Globally | Symbol::Finally | Symbol::Next => Some(
            Note::plain("an operator is missing before this, or a `;` behind the formula"),
        ),
        _ => None,
    }
}

/// The note that the word at the place is a keyword, if it is one.
fn reserved<'a>(around: &Around<'a>) -> Option<Note<'a>> {
    let word = around.word_found();
    let is_word = word.bytes().all(|byte| byte.is_ascii_alphabetic()) && !word.is_empty();
    if is_word && around.symbol()? != Symbol::Ident {
        Some(Note::about("`%` is a word of TLSF, and no name", word))
    } else {
        None
    }
}

/// The note on a name that stands where a block may begin.
fn section_note<'a>(alloc: Global, around: &Around<'a>) -> Result<Option<Note<'a>>, AllocError> {
    if around.symbol() != Some(Symbol::Ident) {
        return Ok(None);
    }
    let word = around.word_found();
    let Some(name) = nearest_section(alloc, names_in(around.block()), word)? else {
        return Ok(None);
    };
    let text = if word.eq_ignore_ascii_case(name) {
        "the names of sections are written in capitals: `%`"
    } else {
        "the nearest name of a section is `%`"
    };
    Ok(Some(Note::about(text, name)))
}

/// The names of the blocks that may stand in a block.
fn names_in(block: Option<Token>) -> &'static [&'static str] {
    match block {
        None => &TOP_NAMES,
        Some(
            Token {
                symbol: Symbol::Global,
                ..
            },
        ) => &GLOBAL_NAMES,
        Some(
            Token {
                symbol: Symbol::Main,
                ..
            },
        ) => &MAIN_NAMES,
        _ => &[],
    }
}

fn nearest_section(
    alloc: Global,
    names: &'static [&'static str],
    word: &str,
) -> Result<Option<&'static str>, AllocError> {
    let mut nearest = Nearest::new(word);
    for name in names {
        nearest.compare(alloc, *name)?;
    }
    Ok(nearest.found)
}

const TOP_NAMES: [&str; 3] = ["INFO", "GLOBAL", "MAIN"];

const GLOBAL_NAMES: [&str; 2] = ["PARAMETERS", "DEFINITIONS"];

const MAIN_NAMES: [&str; 13] = [
    "INPUTS",
    "OUTPUTS",
    "INITIALLY",
    "PRESET",
    "REQUIRE",
    "REQUIREMENTS",
    "ASSERT",
    "ASSERTIONS",
    "INVARIANTS",
    "ASSUME",
    "ASSUMPTIONS",
    "GUARANTEE",
    "GUARANTEES",
];
