//! What a formula asks: assumptions and guarantees, each a conjunct of one class.

use crate::forms::{Form, FormId, Forms};
use crate::refusals::Refusal;
use crate::taking::taken;
use ltl_formula::{FormulaId, Formulas};
use std::alloc::{AllocError, Global};

/// What a conjunct asks.
#[derive(Clone, Copy, Debug, PartialEq, Eq)]
pub enum Class {
    /// That nothing bad comes: it has no until.
    Safety,
    /// That something good comes: it has no release.
    Reachability,
    /// That something good comes again and again: G of a form that has no release.
    Recurrence,
}

/// A form that holds by itself. A guarantee is owed where the assumptions of its depth and of those above hold.
#[derive(Clone, Copy, Debug)]
pub struct Conjunct {
    pub form: FormId,
    pub class: Class,
    pub depth: u32,
}

/// The conjuncts of a formula.
#[derive(Drop)]
pub struct Conjuncts {
    pub forms: Forms,
    pub assumptions: Vec<Conjunct>,
    pub guarantees: Vec<Conjunct>,
}

/// Implications stand in one another at most so deep.
const MOST_DEPTH: u32 = 20;

/// The conjuncts of a formula that is in normal form, if it has the shape: guarantees, and at most one implication beside them, from
/// assumptions to a formula that has the shape again.
pub fn conjuncts_of(
    alloc: Global,
    formulas: &Formulas,
    whole: FormulaId,
) -> Result<Conjuncts, Refusal> {
    let mut forms = Forms::new(alloc);
    let Some(form) = taken(alloc, &mut forms, formulas, whole)? else {
        return Err(Refusal::NoShape);
    };
    let rest = forms.rewritten(form)?;
    let mut conjuncts = Conjuncts {
        forms,
        assumptions: Vec::new(alloc),
        guarantees: Vec::new(alloc),
    };
    conjuncts.take_levels(rest)?;
    if conjuncts.is_reactivity() {
        return Ok(conjuncts);
    }
    Err(Refusal::NoShape)
}

/// An implication: the conjuncts of its assumptions, and what is owed where they hold.
#[derive(Drop)]
struct Implication {
    assumptions: Vec<FormId>,
    owed: FormId,
}

impl Forms {
    /// What a form asks by itself.
    pub fn class_of(&self, id: FormId) -> Option<Class> {
        let operators = self.operators(id);
        if !operators.until {
            return Some(Class::Safety);
        }
        if !operators.release {
            return Some(Class::Reachability);
        }
        let below = self.below_globally(id)?;
        if self.operators(below).release {
            return None;
        }
        Some(Class::Recurrence)
    }

    pub(crate) fn has_class(&self, id: FormId) -> bool {
        self.class_of(id).is_some()
    }

    /// A disjunction as an implication: all disjuncts but one negated are assumptions.
    fn implication(&mut self, id: FormId) -> Result<Implication, Refusal> {
        let disjuncts = self.disjuncts(id)?;
        if disjuncts.len() < 2 {
            return Err(Refusal::NoShape);
        }
        for wants_conjunction in [true, false] {
            for behind in 1..=disjuncts.len() {
                let place = disjuncts.len() - behind;
                if self.is_conjunction(&disjuncts, place) == wants_conjunction
                    && let Some(implication) = self.implication_to(&disjuncts, place)?
                {
                    return Ok(implication);
                }
            }
        }
        Err(Refusal::NoShape)
    }

    /// Whether a disjunct is a conjunction that speaks of letters without a bound.
    fn is_conjunction(&self, disjuncts: &[FormId], place: usize) -> bool {
        let Some(disjunct) = disjuncts.get(place) else {
            return false;
        };
        let below = self.below_globally(*disjunct).unwrap_or(*disjunct);
        match self.form(below) {
            Form::And(_, _) => self.operators(*disjunct).are_unbounded(),
            _ => false,
        }
    }

    /// The implication to one disjunct, where each assumption has a class.
    fn implication_to(
        &mut self,
        disjuncts: &[FormId],
        place: usize,
    ) -> Result<Option<Implication>, Refusal> {
        let Some(owed) = disjuncts.get(place).copied() else {
            return Ok(None);
        };
        let others = self.all_but(disjuncts, place)?;
        let assumed = self.negated(others)?;
        let assumptions = self.apart(assumed)?;
        for assumption in &assumptions {
            if !self.has_class(*assumption) {
                return Ok(None);
            }
        }
        Ok(Some(Implication { assumptions, owed }))
    }
}

impl Conjuncts {
    /// Takes the guarantees of a form, and the implication beside them, level by level.
    fn take_levels(&mut self, form: FormId) -> Result<(), Refusal> {
        let mut rest = form;
        for depth in 0..MOST_DEPTH {
            let parts = self.forms.apart(rest)?;
            let Some(spine) = self.take_guarantees(&parts, depth)? else {
                return Ok(());
            };
            let implication = self.forms.implication(spine)?;
            self.take_assumptions(&implication.assumptions, depth.saturating_add(1))?;
            rest = implication.owed;
        }
        Err(Refusal::NoShape)
    }

    /// Takes the parts that have a class. The one that has none is given back; two are too many.
    fn take_guarantees(&mut self, parts: &[FormId], depth: u32) -> Result<Option<FormId>, Refusal> {
        let mut spine = None;
        for part in parts {
            match self.forms.class_of(*part) {
                Some(class) => take(&mut self.guarantees, *part, class, depth)?,
                None if spine.is_some() => return Err(Refusal::NoShape),
                None => spine = Some(*part),
            }
        }
        Ok(spine)
    }

    fn take_assumptions(&mut self, parts: &[FormId], depth: u32) -> Result<(), Refusal> {
        for part in parts {
            if let Some(class) = self.forms.class_of(*part) {
                take(&mut self.assumptions, *part, class, depth)?;
            }
        }
        Ok(())
    }

    /// Whether each guarantee of something good is owed under all assumptions of something good.
    fn is_reactivity(&self) -> bool {
        let mut deepest = 0u32;
        for assumption in &self.assumptions {
            if assumption.class != Class::Safety {
                deepest = deepest.max(assumption.depth);
            }
        }
        for guarantee in &self.guarantees {
            if guarantee.class != Class::Safety && guarantee.depth < deepest {
                return false;
            }
        }
        true
    }
}

/// Takes a conjunct, unless it was taken before.
fn take(
    conjuncts: &mut Vec<Conjunct>,
    form: FormId,
    class: Class,
    depth: u32,
) -> Result<(), AllocError> {
    for other in conjuncts.as_slice() {
        if other.form == form {
            return Ok(());
        }
    }
    conjuncts.push(Conjunct { form, class, depth })?;
    Ok(())
}
