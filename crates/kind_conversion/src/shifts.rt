ghost use Rattle.std.specs.Prelude.{◌≡◌};
ghost use Rattle.kind_conversion.specs.Shifts.{is_shifted, shift_of};

use letters_and_lassos::Kind;

/// Which signals are taken from the next position.
#[derive(Clone, Copy, Debug, PartialEq, Eq)]
pub enum Shift {
    Inputs,
    Outputs,
}

impl Shift {
    /// Whether the signal is one of those that are shifted, where so many are inputs.
    pub fn takes(self, inputs: u32, signal: u32) -> bool
        ensures { result ≡ is_shifted self inputs signal }
    {
        match self {
            Shift::Inputs => signal < inputs,
            Shift::Outputs => signal >= inputs,
        }
    }
}

/// What is shifted where a text of this SEMANTICS is taken for this TARGET.
pub fn shift_of(semantics: Kind, target: Kind) -> Option<Shift>
    ensures { result ≡ shift_of semantics target }
{
    match (semantics, target) {
        (Kind::Moore, Kind::Mealy) => Some(Shift::Inputs),
        (Kind::Mealy, Kind::Moore) => Some(Shift::Outputs),
        (Kind::Mealy, Kind::Mealy) | (Kind::Moore, Kind::Moore) => None,
    }
}
