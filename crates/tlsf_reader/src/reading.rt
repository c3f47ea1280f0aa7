//! Reading a whole text: its one tree, or its first fault.

ghost use Rattle.std.specs.Prelude.{◌≡◌, ℕ, [], map, IfOk, Err};
ghost use Rattle.spec_faults.specs.declared.code.SpecCode.{SpecCode};
ghost use Rattle.spec_faults.specs.declared.code.SpecFault.TheVariants.{At};
ghost use Rattle.tlsf_syntax.specs.Nesting.{first_deep};
ghost use Rattle.tlsf_reader.specs.Seen.{seen};
ghost use Rattle.tlsf_reader.specs.TextView.{written_view};
ghost use Rattle.tlsf_syntax.specs.Seen.{text_seen};
ghost use Rattle.tlsf_reader.specs.Places.{IsReadResult};
ghost use Rattle.tlsf_reader.specs.Known.{place_in, stop_fault, deep_fault, IsKnown, IsEarliest, refused_fault};
ghost use Rattle.tlsf_reader.specs.Faults.{IsReadingFault, HasLateFault, most_nesting, symbols_of};
ghost use Rattle.tlsf_reader.specs.Reads.{Reads};

use crate::assemble::assemble;
use crate::fault::{Fault, earlier, fault_at};
use crate::finite::first_finite;
use crate::least::least;
use crate::lexeme::{Lexed, Lexeme, lex};
use crate::repeat::{field_missing, name_twice, part_missing, part_twice};
use crate::rest::Refusal;
use crate::text::whole_text;
use crate::written::Written;
use spec_faults::{SpecCode, SpecFault};
use std::alloc::{AllocError, Global};
use tlsf_syntax::{SpecTree, first_too_deep};

/// The most bytes that a text may have.
pub const MOST_BYTES: usize = 1_048_576;

/// The first lexeme whose written nesting passes the limit.
fn too_deep(alloc: Global, lexemes: &[Lexeme<'_>]) -> Result<Option<usize>, AllocError>
    ensures { IfOk result (λ found. found ≡ first_deep most_nesting [] (symbols_of (map seen lexemes.now))) }
{
    let mut symbols = Vec::new(alloc);
    for lexeme in lexemes {
        symbols.push(lexeme.symbol)?;
    }
    first_too_deep(alloc, &symbols)
}

/// Where the lexeme with this number begins, or where the lexemes stop.
fn place_of(lexed: &Lexed<'_>, number: usize) -> u64
    ensures { result ≡ place_in (map seen lexed.now.lexemes.items) lexed.now.stop_at number }
{
    match lexed.lexemes.get(number) {
        Some(lexeme) => lexeme.start,
        None => lexed.stop_at,
    }
}

/// Why the tokens stop.
fn stop_fault(lexed: &Lexed<'_>) -> Option<Fault>
    ensures { result ≡ stop_fault lexed.now.stop lexed.now.stop_at }
{
    match lexed.stop {
        Some(code) => Some(Fault {
            code,
            place: lexed.stop_at,
        }),
        None => None,
    }
}

/// Written nesting that passes the limit, at the lexeme with this number.
fn deep_fault(lexed: &Lexed<'_>, deep: Option<usize>) -> Option<Fault>
    ensures { result ≡ deep_fault (map seen lexed.now.lexemes.items) lexed.now.stop_at deep }
{
    match deep {
        Some(number) => Some(Fault {
            code: SpecCode::TooDeep,
            place: place_of(lexed, number),
        }),
        None => None,
    }
}

/// The first of the faults that are found without the grammar: why the tokens stop, written nesting, and `Finite`.
fn known_fault(lexed: &Lexed<'_>, deep: Option<usize>) -> Option<Fault>
    ensures { IsEarliest (IsKnown (map seen lexed.now.lexemes.items) lexed.now.stop lexed.now.stop_at deep) result }
{
    let finite = fault_at(SpecCode::Unsupported, first_finite(&lexed.lexemes));
    earlier(earlier(stop_fault(lexed), deep_fault(lexed, deep)), finite)
}

/// The known fault, or the unexpected lexeme where that stands before it. At one place the unexpected lexeme gives way.
fn refused(known: Option<Fault>, place: u64) -> Fault
    ensures { result ≡ refused_fault known place }
{
    match known {
        Some(fault) if fault.place <= place => fault,
        _ => Fault {
            code: SpecCode::Unexpected,
            place,
        },
    }
}

/// The first fault of a text of the grammar: a part or a name that is given twice, or a needed part that is absent.
fn late_fault(
    alloc: Global,
    lexemes: &[Lexeme<'_>],
    written: &Written,
) -> Result<Option<Fault>, AllocError>
    ensures { IfOk result (λ found. IsEarliest (HasLateFault (map seen lexemes.now) (written_view written.now)) found) }
{
    let twice = least(part_twice(lexemes), name_twice(alloc, written)?);
    let missing = least(field_missing(lexemes), part_missing(lexemes));
    Ok(earlier(
        fault_at(SpecCode::Twice, twice),
        fault_at(SpecCode::Missing, missing),
    ))
}

/// The tree of a text of the grammar, or its first fault.
fn accepted(alloc: Global, lexemes: &[Lexeme<'_>], written: Written) -> Result<SpecTree, SpecFault>
    ensures { IsReadResult (map seen lexemes.now) (written_view written) result }
{
    if let Some(fault) = late_fault(alloc, lexemes, &written)? {
        return Err(SpecFault::from(fault));
    }
    let tree = assemble(alloc, written)?;
    Ok(tree)
}

/// The one tree of a text, or its first fault. It takes time and memory in proportion to the text's length, and goes as
/// deep as written nesting allows.
pub fn read(alloc: Global, text: &[u8]) -> Result<SpecTree, SpecFault>
    ensures tree { IfOk result (λ tree. Reads text.now (text_seen tree)) }
    ensures fault { (code : SpecCode) (place : ℕ) → result ≡ Err (At code place) → IsReadingFault text.now code place }
{
    if text.len() > MOST_BYTES {
        return Err(SpecFault::At {
            code: SpecCode::TooLong,
            place: MOST_BYTES as u64,
        });
    }
    let lexed = lex(alloc, text)?;
    let deep = too_deep(alloc, &lexed.lexemes)?;
    let known = known_fault(&lexed, deep);
    let cut = deep.unwrap_or(lexed.lexemes.len());
    match whole_text(alloc, &lexed.lexemes[..cut]) {
        Ok(written) => match known {
            Some(fault) => Err(SpecFault::from(fault)),
            None => accepted(alloc, &lexed.lexemes, written),
        },
        Err(Refusal::NoMemory) => Err(SpecFault::NoMemory),
        Err(Refusal::At { left }) => {
            let fault = refused(known, place_of(&lexed, cut - left));
            Err(SpecFault::from(fault))
        }
    }
}
