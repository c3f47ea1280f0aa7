//! How a text is taken.
ghost use Rattle.std.specs.Prelude.{◌≡◌};
ghost use Rattle.tlsf_syntax.specs.Seen.{text_seen};
ghost use Rattle.solve_ground.specs.Taken.{converted_from, taken_kind as kind_taken, taken_shift as shift_taken};

use kind_conversion::{Shift, shift_of};
use letters_and_lassos::Kind;
use tlsf_syntax::SpecTree;

/// The kind of the system's machines.
pub(crate) fn taken_kind(given: Option<Kind>, tree: &SpecTree) -> Kind
    ensures { result ≡ kind_taken given (text_seen tree.now) }
{
    match given {
        Some(kind) => kind,
        None => tree.info.target,
    }
}

/// Which signals the text speaks of one letter later.
pub(crate) fn taken_shift(given: Option<Kind>, tree: &SpecTree) -> Option<Shift>
    ensures { result ≡ shift_taken given (text_seen tree.now) }
{
    match given {
        Some(_) => None,
        None => shift_of(tree.info.semantics, tree.info.target),
    }
}

/// The SEMANTICS of a text that is converted.
pub(crate) fn semantics_of(given: Option<Kind>, tree: &SpecTree) -> Option<Kind>
    ensures { result ≡ converted_from given (text_seen tree.now) }
{
    match taken_shift(given, tree) {
        Some(_) => Some(tree.info.semantics),
        None => None,
    }
}
