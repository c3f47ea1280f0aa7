ghost use Rattle.std.specs.Prelude.{◌≡◌, ◌<◌, ◌≤◌, List, Some, All, Err, IfOk, OnOk, length, slice_get};
ghost use Rattle.ltl_formula.specs.declared.nodes.Node.{Node};
ghost use Rattle.ltl_formula.specs.Nodes.{IsNodeIn};
ghost use Rattle.obligation_sets.specs.Covers.{set_leaves};
ghost use Rattle.obligation_sets.specs.Reduced.{covers_by};
ghost use Rattle.obligation_sets.specs.declared.sets.Covering.{Covering};
ghost use Rattle.cobuchi_build.specs.CoverTable.{IsTableOf};

use indexmap::IndexSet;
use ltl_formula::Formulas;
use obligation_sets::{Cover, CoverFault, Covering, MAX_LEAVES, ObligationSet, covers};
use std::alloc::{AllocError, Global};
use std::marker::Model;

/// With more covers than these a table begins anew, so that it takes no more memory than they do and those of one set.
const MOST_HELD: usize = 200_000;

/// The covers of the sets that were asked for, all plain or all reduced, which are made once for each set.
#[derive(Drop)]
pub(crate) struct CoverTable {
    sets: IndexSet<ObligationSet>,
    covers: Vec<Vec<Cover>>,

    /// How many covers there are in all.
    held: usize,
}

impl Model for CoverTable {
    ghost use Rattle.std.specs.Prelude.{map};
    ghost use Rattle.cobuchi_build.specs.CoverTable.{TableModel};

    ghost Value = { TableModel };

    ghost view = { λ t. record { sets = t.sets.keys; covers = map (λ covers. covers.items) t.covers.items } };
}

impl CoverTable {
    /// No sets.
    pub(crate) fn new(alloc: Global) -> CoverTable
        ensures { (covering : Covering) (ns : List Node) → IsTableOf covering ns result }
    {
        CoverTable {
            sets: IndexSet::new(alloc),
            covers: Vec::new(alloc),
            held: 0,
        }
    }

    /// Where the covers of a set of obligations in normal form stand. They are made where the set wasn't asked for before.
    pub(crate) fn place(
        &mut self,
        alloc: Global,
        formulas: &Formulas,
        set: &ObligationSet,
        covering: Covering,
    ) -> Result<usize, CoverFault>
        requires stands { All (IsNodeIn formulas.now) set.now }
        requires known { IsTableOf covering formulas.now self.old }
        ensures covers { IfOk result (λ place. slice_get self.new.covers place ≡ Some (covers_by covering formulas.now set.now)) }
        ensures known { OnOk result (IsTableOf covering formulas.now self.new) }
        ensures few_leaves { OnOk result (length (set_leaves formulas.now set.now) ≤ MAX_LEAVES) }
        ensures too_many { result ≡ Err CoverFault.TooManyLeaves → MAX_LEAVES < length (set_leaves formulas.now set.now) }
    {
        self.make_room();
        let key = ObligationSet::new(Vec::from_slice(alloc, set.ids())?);
        let (place, is_new) = self.sets.insert_full(key)?;
        if is_new {
            let covers = covers(alloc, formulas, set, covering)?;
            self.held = self.held.saturating_add(covers.len());
            self.covers.push(covers)?;
        }
        Ok(place)
    }

    /// Begins anew where too many covers are held.
    fn make_room(&mut self)
        ensures { (covering : Covering) (ns : List Node) → IsTableOf covering ns self.old → IsTableOf covering ns self.new }
    {
        if self.held > MOST_HELD {
            self.sets.clear();
            self.covers.clear();
            self.held = 0;
        }
    }

    /// The covers that stand at a place.
    pub(crate) fn at(&self, place: usize) -> &[Cover]
        requires { place < length self.now.covers }
        ensures { slice_get self.now.covers place ≡ Some result.now }
    {
        &self.covers[place]
    }
}
