ghost use Rattle.std.specs.Prelude.{◌≡◌};
ghost use Rattle.letters_and_lassos.specs.Kinds.{other_kind, kind_word};

/// Whether a machine writes by the letter that it reads now (Mealy), or by its state alone (Moore).
#[derive(Clone, Copy, Debug, PartialEq, Eq)]
pub enum Kind {
    Mealy,
    Moore,
}

impl Kind {
    /// The kind of the machines that play against machines of this kind.
    pub fn other(self) -> Kind
        ensures { result ≡ other_kind self }
    {
        match self {
            Kind::Mealy => Kind::Moore,
            Kind::Moore => Kind::Mealy,
        }
    }

    /// The word of this kind in texts and documents.
    pub fn word(self) -> &'static str
        ensures { result.now ≡ kind_word self }
    {
        match self {
            Kind::Mealy => "Mealy",
            Kind::Moore => "Moore",
        }
    }
}

/// Who plays: the system that is looked for, or the environment that it must withstand.
#[derive(Clone, Copy, Debug, PartialEq, Eq)]
pub enum Side {
    System,
    Environment,
}
