//! A text as a document asks for it.
ghost use Rattle.std.specs.Prelude.{◌≡◌, ℕ, Err, IfOk, Some, MatchOption};
ghost use Rattle.spec_faults.specs.declared.code.SpecCode.{SpecCode as Code};
ghost use Rattle.spec_faults.specs.declared.code.SpecFault.TheVariants.{At};
ghost use Rattle.solve_ground.specs.SolveText.{IsSolveFault};
ghost use Rattle.solve_check.specs.Asked.{CannotBeConverted, IsAskedText, kind_said};
ghost use Rattle.solve_check.specs.Parts.{IsConvertedFor};

use crate::given::is_taken_so;
use letters_and_lassos::Kind;
use solve_ground::{SolveText, solve_text};
use solved_text::Header;
use spec_faults::SpecFault;
use std::alloc::Global;

/// The text as a document with this header asks for it: with the document's kind, as a given one, or by its own kinds where the document
/// says that it is converted, and it is, for machines of that kind. Where it isn't, it is taken with the kind, so that the line that says
/// so fails.
pub fn asked_text(alloc: Global, text: &[u8], header: Header) -> Result<SolveText, SpecFault>
    ensures asked { IfOk result (IsAskedText text.now header) }
    ensures fault { (code : Code) (place : ℕ) → result ≡ Err (At code place) → IsSolveFault text.now (Some (kind_said header)) code place }
{
    let kind = header.kind.unwrap_or(Kind::Mealy);
    if header.converted {
        if let Some(converted) = converted_text(alloc, text, kind)? {
            return Ok(converted);
        }
    }
    solve_text(alloc, text, Some(kind))
}

/// The text taken by its own kinds, where it is converted for machines of this one.
fn converted_text(alloc: Global, text: &[u8], kind: Kind) -> Result<Option<SolveText>, SpecFault>
    ensures found { IfOk result (λ found. MatchOption found (CannotBeConverted text.now kind) (IsConvertedFor text.now kind)) }
    ensures no_fault { (code : Code) (place : ℕ) → result ≡ Err (At code place) → ⊥ }
{
    match solve_text(alloc, text, None) {
        Ok(found) => {
            if is_taken_so(&found, kind, true) {
                Ok(Some(found))
            } else {
                Ok(None)
            }
        }
        Err(SpecFault::NoMemory) => Err(SpecFault::NoMemory),
        Err(SpecFault::At { .. }) => Ok(None),
    }
}
