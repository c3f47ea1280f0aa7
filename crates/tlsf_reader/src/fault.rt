//! Faults with their places, and the one that comes first.

ghost use Rattle.std.specs.Prelude.{◌≡◌};
ghost use Rattle.tlsf_reader.specs.Places.{earlier};
ghost use Rattle.tlsf_reader.specs.Known.{fault_at};

use spec_faults::{SpecCode, SpecFault};

/// A fault of a text, at this byte.
#[derive(Clone, Copy)]
pub(crate) struct Fault {
    pub code: SpecCode,
    pub place: u64,
}

impl From<Fault> for SpecFault {
    ghost use Rattle.std.specs.Prelude.{◌≡◌};
    ghost use Rattle.spec_faults.specs.declared.code.SpecFault.TheVariants.{At};

    ghost from_gives = { λ found fault. fault ≡ At found.code found.place };

    fn from(found: Fault) -> SpecFault {
        SpecFault::At {
            code: found.code,
            place: found.place,
        }
    }
}

/// The fault at the earlier place. At one place it is the first one.
pub(crate) fn earlier(one: Option<Fault>, two: Option<Fault>) -> Option<Fault>
    ensures { result ≡ earlier one two }
{
    match (one, two) {
        (None, found) | (found, None) => found,
        (Some(first), Some(second)) => {
            if first.place <= second.place {
                Some(first)
            } else {
                Some(second)
            }
        }
    }
}

/// A fault of this code, where it has a place.
pub(crate) fn fault_at(code: SpecCode, place: Option<u64>) -> Option<Fault>
    ensures { result ≡ fault_at code place }
{
    match place {
        Some(place) => Some(Fault { code, place }),
        None => None,
    }
}
