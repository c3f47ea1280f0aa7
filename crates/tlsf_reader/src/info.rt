//! The descent for INFO.

ghost use Rattle.std.specs.Prelude.{◌≡◌, ◌<◌, ◌≤◌, length, OnOk};
ghost use Rattle.tlsf_syntax.specs.Texts.{unquoted};
ghost use Rattle.tlsf_syntax.specs.TextReading.{names_read, is_strict, kind_of, semantics_read, target_read, tags_read, fields_read};
ghost use Rattle.tlsf_reader.specs.Seen.{seen};
ghost use Rattle.tlsf_reader.specs.TextView.{field_view, each};
ghost use Rattle.tlsf_reader.specs.Descent.{IsRead, IsBuilt};
ghost use Rattle.tlsf_reader.specs.TextDescent.{IsKindWord, IsStrictPassed, field_at};
ghost use Rattle.tlsf_syntax.specs.Seen.{word_seen};

use crate::ahead::Ahead;
use crate::lexeme::Lexeme;
use crate::node;
use crate::rest::Refusal;
use crate::written::Field;
use letters_and_lassos::Kind;
use names_and_numbers::Name;
use std::alloc::Global;
use tlsf_syntax::Word;
use tlsf_tokens::Symbol;

/// One or more names with commas between.
pub(crate) fn names(alloc: Global, ahead: &mut Ahead<'_>) -> Result<Vec<Word>, Refusal>
    ensures read { IsRead (each word_seen) (λ d. names_read d ahead.old) ahead.new result }
    ensures shorter { OnOk result (length ahead.new < length ahead.old) }
{
    let mut names = Vec::new(alloc);
    loop {
        let name = ahead.expect(Symbol::Ident)?;
        let word = node::word(alloc, name)?;
        names.push(word)?;
        let Some(_) = ahead.next_if(Symbol::Comma) else {
            return Ok(names);
        };
    }
}

/// The kind that a word names.
fn kind(lexeme: Lexeme<'_>) -> Option<Kind>
    ensures { result ≡ kind_of (seen lexeme.entry) }
{
    if lexeme.symbol != Symbol::Ident {
        return None;
    }
    if lexeme.text == b"Mealy".as_slice() {
        return Some(Kind::Mealy);
    }
    if lexeme.text == b"Moore".as_slice() {
        return Some(Kind::Moore);
    }
    None
}

/// Whether a word is `Strict`.
fn is_strict(lexeme: Lexeme<'_>) -> bool
    ensures { result ≡ is_strict (seen lexeme.entry) }
{
    lexeme.symbol == Symbol::Ident && lexeme.text == b"Strict".as_slice()
}

/// A word that names a kind, with its first byte.
#[derive(Clone, Copy)]
struct KindWord {
    kind: Kind,
    at: u64,
}

/// The next lexeme, which has to name a kind. It is passed.
fn expect_kind(ahead: &mut Ahead<'_>) -> Result<KindWord, Refusal>
    ensures next { IsKindWord ahead.old ahead.new result }
    ensures shorter { OnOk result (length ahead.new < length ahead.old) }
{
    let refusal = ahead.refusal();
    let Some(word) = ahead.take() else {
        return Err(refusal);
    };
    match kind(word) {
        Some(kind) => Ok(KindWord {
            kind,
            at: word.start,
        }),
        None => Err(refusal),
    }
}

/// Whether the next lexeme is the word `Strict`. Then it is passed.
fn pass_strict(ahead: &mut Ahead<'_>) -> bool
    ensures next { IsStrictPassed ahead.old ahead.new result }
    ensures shorter { length ahead.new ≤ length ahead.old }
{
    match ahead.front() {
        [first, ..] => {
            if is_strict(*first) {
                let _ = ahead.take();
                true
            } else {
                false
            }
        }
        [] => false,
    }
}

/// The value of SEMANTICS.
fn semantics(ahead: &mut Ahead<'_>) -> Result<Field, Refusal>
    ensures read { IsRead field_view (λ _. semantics_read ahead.old) ahead.new result }
    ensures shorter { OnOk result (length ahead.new ≤ length ahead.old) }
{
    if pass_strict(ahead) {
        let _ = ahead.expect(Symbol::Comma)?;
        let word = expect_kind(ahead)?;
        return Ok(Field::Semantics {
            kind: word.kind,
            strict: true,
        });
    }
    let word = expect_kind(ahead)?;
    let Some(_) = ahead.next_if(Symbol::Comma) else {
        return Ok(Field::Semantics {
            kind: word.kind,
            strict: false,
        });
    };
    if pass_strict(ahead) {
        Ok(Field::Semantics {
            kind: word.kind,
            strict: true,
        })
    } else {
        Err(ahead.refusal())
    }
}

/// The value of TARGET.
fn target(ahead: &mut Ahead<'_>) -> Result<Field, Refusal>
    ensures read { IsRead field_view (λ _. target_read ahead.old) ahead.new result }
    ensures shorter { OnOk result (length ahead.new ≤ length ahead.old) }
{
    let word = expect_kind(ahead)?;
    Ok(Field::Target {
        kind: word.kind,
        at: word.at,
    })
}

/// The value of TAGS, which may be none.
fn tags(alloc: Global, ahead: &mut Ahead<'_>) -> Result<Field, Refusal>
    ensures read { IsRead field_view (λ d. tags_read d ahead.old) ahead.new result }
    ensures shorter { OnOk result (length ahead.new ≤ length ahead.old) }
{
    if ahead.begins(Symbol::Ident) {
        let words = names(alloc, ahead)?;
        return Ok(Field::Tags(words));
    }
    Ok(Field::Tags(Vec::new(alloc)))
}

/// What stands between the quotes of a text.
fn unquoted(alloc: Global, text: &[u8]) -> Result<Name, Refusal>
    ensures { IsBuilt (λ name. name) (unquoted text.now) result }
{
    let inside = match text {
        [_, inside @ .., _] => inside,
        _ => b"".as_slice(),
    };
    Ok(Name::new(alloc, inside)?)
}

/// A field of INFO.
fn field(alloc: Global, ahead: &mut Ahead<'_>) -> Result<Field, Refusal>
    ensures read { IsRead field_view (λ d. field_at d ahead.old) ahead.new result }
    ensures shorter { OnOk result (length ahead.new < length ahead.old) }
{
    let refusal = ahead.refusal();
    let Some(first) = ahead.take() else {
        return Err(refusal);
    };
    match first.symbol {
        Symbol::Title => {
            let _ = ahead.expect(Symbol::Colon)?;
            let text = ahead.expect(Symbol::Text)?;
            let title = unquoted(alloc, text.text)?;
            Ok(Field::Title(title))
        }
        Symbol::Description => {
            let _ = ahead.expect(Symbol::Colon)?;
            let text = ahead.expect(Symbol::Text)?;
            let description = unquoted(alloc, text.text)?;
            Ok(Field::Description(description))
        }
        Symbol::Semantics => {
            let _ = ahead.expect(Symbol::Colon)?;
            semantics(ahead)
        }
        Symbol::Target => {
            let _ = ahead.expect(Symbol::Colon)?;
            target(ahead)
        }
        Symbol::Tags => {
            let _ = ahead.expect(Symbol::Colon)?;
            tags(alloc, ahead)
        }
        _ => Err(refusal),
    }
}

/// The fields of INFO, up to its closing brace.
pub(crate) fn fields(alloc: Global, ahead: &mut Ahead<'_>) -> Result<Vec<Field>, Refusal>
    ensures read { IsRead (each field_view) (λ d. fields_read d ahead.old) ahead.new result }
    ensures shorter { OnOk result (length ahead.new ≤ length ahead.old) }
{
    let mut fields = Vec::new(alloc);
    while !ahead.begins(Symbol::CloseBrace) {
        let field = field(alloc, ahead)?;
        fields.push(field)?;
    }
    Ok(fields)
}
