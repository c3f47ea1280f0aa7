//! What is given twice, and what is missing.

ghost use Rattle.std.specs.Prelude.{◌≡◌, ◌∷◌, [], ◌++◌, map, IfOk, OnOk};
ghost use Rattle.tlsf_reader.specs.Seen.{seen};
ghost use Rattle.tlsf_reader.specs.Parts.{definition_words, words_of_definitions, words_of_parts, declared_words};
ghost use Rattle.tlsf_syntax.specs.Seen.{word_seen, definition_seen};
ghost use Rattle.tlsf_reader.specs.TextView.{block_view, part_view, written_view};
ghost use Rattle.tlsf_reader.specs.Least.{IsLeast};
ghost use Rattle.tlsf_reader.specs.Places.{OccursAt, RepeatedAt, RepeatedAmong, PartTwiceAt, NameTwiceAt, FieldMissingAt, PartMissingAt, occurs, first_brace};
ghost use Rattle.tlsf_reader.specs.Assembly.{block_definitions};

use crate::least::least;
use crate::lexeme::Lexeme;
use crate::written::{Block, Part, Written};
use indexmap::IndexSet;
use names_and_numbers::Name;
use std::alloc::{AllocError, Global};
use tlsf_syntax::{Declaration, Definition, Member, Word};
use tlsf_tokens::{Section, Symbol};

/// The symbols that head a part which stands at most once.
const HEADS: [Symbol; 15] = [
    Symbol::Title,
    Symbol::Description,
    Symbol::Semantics,
    Symbol::Target,
    Symbol::Tags,
    Symbol::Parameters,
    Symbol::Definitions,
    Symbol::Inputs,
    Symbol::Outputs,
    Symbol::Section(Section::Initially),
    Symbol::Section(Section::Preset),
    Symbol::Section(Section::Require),
    Symbol::Section(Section::Assert),
    Symbol::Section(Section::Assume),
    Symbol::Section(Section::Guarantee),
];

/// The first byte of the first lexeme of this symbol.
fn occurrence(symbol: Symbol, lexemes: &[Lexeme<'_>]) -> Option<u64>
    ensures { IsLeast (OccursAt symbol (map seen lexemes.now)) result }
{
    let mut found = None;
    let mut left = lexemes;
    while let [first, rest @ ..] = left {
        if first.symbol == symbol {
            found = least(found, Some(first.start));
        }
        left = rest;
    }
    found
}

/// The first byte of the second lexeme of this symbol.
fn repetition(symbol: Symbol, lexemes: &[Lexeme<'_>]) -> Option<u64>
    ensures { IsLeast (RepeatedAt symbol (map seen lexemes.now)) result }
{
    let mut left = lexemes;
    while let [first, rest @ ..] = left {
        if first.symbol == symbol {
            return occurrence(symbol, rest);
        }
        left = rest;
    }
    None
}

/// The first byte of the first lexeme of one of these symbols that is its symbol's second.
fn repeated_among(symbols: &[Symbol], lexemes: &[Lexeme<'_>]) -> Option<u64>
    ensures { IsLeast (RepeatedAmong symbols.now (map seen lexemes.now)) result }
{
    let mut found = None;
    let mut left = symbols;
    while let [symbol, rest @ ..] = left {
        found = least(found, repetition(*symbol, lexemes));
        left = rest;
    }
    found
}

/// The first byte of the first part that is given a second time.
pub(crate) fn part_twice(lexemes: &[Lexeme<'_>]) -> Option<u64>
    ensures { IsLeast (PartTwiceAt (map seen lexemes.now)) result }
{
    repeated_among(&HEADS, lexemes)
}

fn push_members<'a>(words: &mut Vec<&'a Word>, members: &'a [Member]) -> Result<(), AllocError>
    ensures { OnOk result (map (λ w. word_seen w.now) words.new.items ≡ map (λ w. word_seen w.now) words.old.items ++ map (λ m. word_seen m.word) members.now) }
{
    for member in members {
        words.push(&member.word)?;
    }
    Ok(())
}

/// Appends the words that a definition declares: an enumeration's members too, and no arguments.
fn push_definition<'a>(
    words: &mut Vec<&'a Word>,
    definition: &'a Definition,
) -> Result<(), AllocError>
    ensures { OnOk result (map (λ w. word_seen w.now) words.new.items ≡ map (λ w. word_seen w.now) words.old.items ++ definition_words (definition_seen definition.now)) }
{
    match definition {
        Definition::Parameter { word, .. } | Definition::Function { word, .. } => {
            words.push(word)?;
        }
        Definition::Enumeration { word, members } => {
            words.push(word)?;
            push_members(words, members)?;
        }
    }
    Ok(())
}

fn push_definitions<'a>(
    words: &mut Vec<&'a Word>,
    definitions: &'a [Definition],
) -> Result<(), AllocError>
    ensures { OnOk result (map (λ w. word_seen w.now) words.new.items ≡ map (λ w. word_seen w.now) words.old.items ++ words_of_definitions (map definition_seen definitions.now)) }
{
    for definition in definitions {
        push_definition(words, definition)?;
    }
    Ok(())
}

fn push_block<'a>(words: &mut Vec<&'a Word>, block: &'a Block) -> Result<(), AllocError>
    ensures { OnOk result (map (λ w. word_seen w.now) words.new.items ≡ map (λ w. word_seen w.now) words.old.items ++ words_of_definitions (block_definitions (block_view block.now))) }
{
    match block {
        Block::Parameters(definitions) | Block::Definitions(definitions) => {
            push_definitions(words, definitions)
        }
    }
}

fn push_declarations<'a>(
    words: &mut Vec<&'a Word>,
    declarations: &'a [Declaration],
) -> Result<(), AllocError>
    ensures { OnOk result (map (λ w. word_seen w.now) words.new.items ≡ map (λ w. word_seen w.now) words.old.items ++ map (λ d. word_seen d.word) declarations.now) }
{
    for declaration in declarations {
        words.push(&declaration.word)?;
    }
    Ok(())
}

fn push_part<'a>(words: &mut Vec<&'a Word>, part: &'a Part) -> Result<(), AllocError>
    ensures { OnOk result (map (λ w. word_seen w.now) words.new.items ≡ map (λ w. word_seen w.now) words.old.items ++ words_of_parts (part_view part.now ∷ [])) }
{
    match part {
        Part::Inputs(declarations) | Part::Outputs(declarations) => {
            push_declarations(words, declarations)
        }
        Part::Section { .. } => Ok(()),
    }
}

/// The declared words of a text, in its order.
fn words(alloc: Global, written: &Written) -> Result<Vec<&Word>, AllocError>
    ensures { IfOk result (λ words. map (λ w. word_seen w.now) words.items ≡ declared_words (written_view written.now)) }
{
    let mut words = Vec::new(alloc);
    for block in &written.blocks {
        push_block(&mut words, block)?;
    }
    for part in &written.parts {
        push_part(&mut words, part)?;
    }
    Ok(words)
}

/// The first byte of the first word that has the name of an earlier one. Costs the hashing of each name.
fn repeated_name(alloc: Global, words: &[&Word]) -> Result<Option<u64>, AllocError>
    ensures { IfOk result (λ found. IsLeast (NameTwiceAt (map (λ w. word_seen w.now) words.now)) found) }
{
    let mut seen: IndexSet<&Name> = IndexSet::new(alloc);
    let mut found = None;
    let mut left = words;
    while let [word, rest @ ..] = left {
        if !seen.insert(&word.name)? {
            found = least(found, Some(word.span.start));
        }
        left = rest;
    }
    Ok(found)
}

/// The first byte of the first declared word that has the name of an earlier one.
pub(crate) fn name_twice(alloc: Global, written: &Written) -> Result<Option<u64>, AllocError>
    ensures { IfOk result (λ found. IsLeast (NameTwiceAt (declared_words (written_view written.now))) found) }
{
    let words = words(alloc, written)?;
    repeated_name(alloc, &words)
}

/// Whether a lexeme has this symbol.
fn has(symbol: Symbol, lexemes: &[Lexeme<'_>]) -> bool
    ensures { result ≡ occurs symbol (map seen lexemes.now) }
{
    let mut left = lexemes;
    while let [first, rest @ ..] = left {
        if first.symbol == symbol {
            return true;
        }
        left = rest;
    }
    false
}

/// The first byte of the first closing brace.
fn first_brace(lexemes: &[Lexeme<'_>]) -> Option<u64>
    ensures { result ≡ first_brace (map seen lexemes.now) }
{
    let mut left = lexemes;
    while let [first, rest @ ..] = left {
        if first.symbol == Symbol::CloseBrace {
            return Some(first.start);
        }
        left = rest;
    }
    None
}

/// The brace that closes INFO, where a field is missing. INFO has no braces inside, so it is the first of a text.
pub(crate) fn field_missing(lexemes: &[Lexeme<'_>]) -> Option<u64>
    ensures { IsLeast (FieldMissingAt (map seen lexemes.now)) result }
{
    if has(Symbol::Title, lexemes)
        && has(Symbol::Description, lexemes)
        && has(Symbol::Semantics, lexemes)
        && has(Symbol::Target, lexemes)
    {
        return None;
    }
    first_brace(lexemes)
}

/// The brace that closes MAIN, where a part is missing. It is the last lexeme of a text.
pub(crate) fn part_missing(lexemes: &[Lexeme<'_>]) -> Option<u64>
    ensures { IsLeast (PartMissingAt (map seen lexemes.now)) result }
{
    if has(Symbol::Inputs, lexemes) && has(Symbol::Outputs, lexemes) {
        return None;
    }
    match lexemes {
        [.., last] => Some(last.start),
        [] => None,
    }
}
