ghost use Rattle.std.specs.Prelude.{◌≡◌};

use letters_and_lassos::Cube;
use ltl_formula::FormulaId;
use std::hash::{Hash, Hasher};
use std::marker::Model;

/// A set of formulas that are to hold at one position, by rising id.
#[derive(Debug, Drop)]
pub struct ObligationSet {
    ids: Vec<FormulaId>,
}

impl Model for ObligationSet {
    ghost use Rattle.std.specs.Prelude.{List};
    ghost use Rattle.ltl_formula.specs.declared.nodes.FormulaId.{FormulaId};
    ghost use Rattle.obligation_sets.specs.Ids.{IdsRise};

    ghost Value = { List FormulaId };

    ghost view = { λ s. s.ids.items };

    ghost invariant = { λ s. IdsRise s.ids.items };
}

impl ObligationSet {
    ghost use Rattle.obligation_sets.specs.Ids.{IdsRise, all_among, is_among};

    /// The set of these formulas. It takes no memory.
    pub fn new(ids: Vec<FormulaId>) -> ObligationSet
        requires { IdsRise ids.items }
        ensures { result ≡ ids.items }
    {
        ObligationSet { ids }
    }

    /// The formulas of the set, by rising id.
    pub fn ids(&self) -> &[FormulaId]
        ensures value { result.now ≡ self.now }
        ensures rising { IdsRise self.now }
    {
        &self.ids
    }

    /// Whether a formula is in the set. It takes a binary search.
    pub fn contains(&self, id: FormulaId) -> bool
        ensures { result ≡ is_among self.now id }
    {
        let ids = self.ids();
        let place = ids.partition_point(|other| other.0 < id.0);
        place < ids.len() && ids[place] == id
    }

    /// Whether each formula of the set is in another. It takes a binary search for each.
    pub(crate) fn is_within(&self, other: &ObligationSet) -> bool
        ensures { result ≡ all_among self.now other.now }
    {
        self.ids().iter().all(|id| other.contains(*id))
    }
}

impl PartialEq for ObligationSet {
    ghost use Rattle.obligation_sets.specs.Ids.{same_ids};
    ghost use Rattle.obligation_sets.specs.IdLaws.{same_ids_per};

    ghost eq = { same_ids };

    ghost laws = { same_ids_per };

    fn eq(&self, other: &Self) -> bool {
        self.ids == other.ids
    }
}

impl Eq for ObligationSet {
    ghost use Rattle.obligation_sets.specs.IdLaws.{same_ids_equiv};

    ghost laws = { same_ids_equiv };
}

impl Hash for ObligationSet {
    ghost use Rattle.std.specs.Hash.{slice, u32};
    ghost use Rattle.obligation_sets.specs.IdLaws.{ids_Alike};

    ghost hash_input = { slice (λ f. u32 f.0) };

    ghost respects_eq = { ids_Alike.fed };

    fn hash<H: Hasher>(&self, state: &mut H) {
        self.ids.hash(state);
    }
}

/// Which covers of a set are meant.
#[derive(Clone, Copy, Debug, PartialEq, Eq)]
pub enum Covering {
    /// The covers of all leaves that aren't dead.
    Plain,
    /// The minimal ones of these, where none leaves a formula that another one that it leaves implies at once.
    Reduced,
}

/// One way to meet a set of obligations at a position.
#[derive(Debug, Drop, PartialEq, Eq, Hash)]
pub struct Cover {
    /// What the letter at the position must fit.
    pub cube: Cube,
    /// What must hold at the next position.
    pub next: ObligationSet,
    /// The untils that are put off to the next position, all of them in `next`.
    pub postponed: ObligationSet,
}
