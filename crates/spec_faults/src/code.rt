//! The numbered refusals of a text.

ghost use Rattle.std.specs.Prelude.{◌≡◌};
ghost use Rattle.spec_faults.specs.Codes.{code_number, name_of};

use std::alloc::{AllocError, AllocFailed};
use thiserror::Error;

/// Why a text is refused, in the order of the numbers.
#[derive(Clone, Copy, Debug, PartialEq, Eq)]
pub enum SpecCode {
    TooLong = 1,
    BadByte = 2,
    Unexpected = 3,
    Unclosed = 4,
    Missing = 5,
    Twice = 6,
    UnknownName = 7,
    WrongSort = 8,
    IndexOut = 9,
    ZeroDivisor = 10,
    NumberRange = 11,
    NoGuard = 12,
    TooDeep = 13,
    TooManyNodes = 14,
    TooManySignals = 15,
    TargetDiffers = 16,
    Unsupported = 17,
    AutomatonTooLarge = 18,
    ExpandTooLong = 19,
    TooManyGuarantees = 20,
}

impl SpecCode {
    /// The number that a refusal is printed with, 1 to 20.
    pub fn number(self) -> u8
        ensures { result ≡ code_number self }
    {
        self as u8
    }

    /// The word that a refusal is printed with.
    pub fn name(self) -> &'static str
        ensures { result.now ≡ name_of self }
    {
        match self {
            SpecCode::TooLong => "TooLong",
            SpecCode::BadByte => "BadByte",
            SpecCode::Unexpected => "Unexpected",
            SpecCode::Unclosed => "Unclosed",
            SpecCode::Missing => "Missing",
            SpecCode::Twice => "Twice",
            SpecCode::UnknownName => "UnknownName",
            SpecCode::WrongSort => "WrongSort",
            SpecCode::IndexOut => "IndexOut",
            SpecCode::ZeroDivisor => "ZeroDivisor",
            SpecCode::NumberRange => "NumberRange",
            SpecCode::NoGuard => "NoGuard",
            SpecCode::TooDeep => "TooDeep",
            SpecCode::TooManyNodes => "TooManyNodes",
            SpecCode::TooManySignals => "TooManySignals",
            SpecCode::TargetDiffers => "TargetDiffers",
            SpecCode::Unsupported => "Unsupported",
            SpecCode::AutomatonTooLarge => "AutomatonTooLarge",
            SpecCode::ExpandTooLong => "ExpandTooLong",
            SpecCode::TooManyGuarantees => "TooManyGuarantees",
        }
    }
}

/// A text isn't accepted: memory ran out, or the text has this fault at this byte.
#[derive(Clone, Copy, Debug, PartialEq, Eq, Error)]
pub enum SpecFault {
    #[error("out of memory")]
    NoMemory,
    #[error("{code:?} at byte {place}")]
    At { code: SpecCode, place: u64 },
}

impl From<AllocError> for SpecFault {
    ghost use Rattle.spec_faults.specs.declared.code.SpecFault.TheVariants.{NoMemory};

    ghost from_gives = { λ _ fault. fault ≡ NoMemory };

    fn from(_error: AllocError) -> SpecFault {
        SpecFault::NoMemory
    }
}

impl<T: Drop> From<AllocFailed<T>> for SpecFault {
    ghost use Rattle.spec_faults.specs.declared.code.SpecFault.TheVariants.{NoMemory};

    ghost from_gives = { λ _ fault. fault ≡ NoMemory };

    fn from(_error: AllocFailed<T>) -> SpecFault {
        SpecFault::NoMemory
    }
}

/// The refusal of a text with this fault at this byte.
pub fn fault(code: SpecCode, place: u64) -> SpecFault
    ensures { result ≡ SpecFault.At code place }
{
    SpecFault::At { code, place }
}
