ghost use Rattle.std.specs.Prelude.{◌≡◌, if◌then◌else◌};

use ltl_formula::FormulaId;

/// The forms of one node that were built: the normal one and the negated one.
#[derive(Clone, Copy)]
pub struct Forms {
    pub kept: Option<FormulaId>,
    pub opposed: Option<FormulaId>,
}

impl Forms {
    /// None was built.
    pub const NONE: Forms = Forms {
        kept: None,
        opposed: None,
    };

    /// The normal form, or the negated one.
    pub fn get(self, keep: bool) -> Option<FormulaId>
        ensures { result ≡ (if keep then self.kept else self.opposed) }
    {
        if keep { self.kept } else { self.opposed }
    }

    /// These forms with one put in.
    pub fn with(self, keep: bool, form: FormulaId) -> Forms
        ensures { result ≡ (if keep then record self { kept = Some form } else record self { opposed = Some form }) }
    {
        if keep {
            Forms {
                kept: Some(form),
                ..self
            }
        } else {
            Forms {
                opposed: Some(form),
                ..self
            }
        }
    }
}
