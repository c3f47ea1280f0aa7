//! The rules by which a form is rewritten whose parts are rewritten already. Each keeps the truth at each position of each lasso.

use crate::forms::{Form, FormId, Forms};
use crate::refusals::Refusal;

impl Forms {
    /// `F G a && F G b` is `F G (a && b)`.
    pub(crate) fn rewritten_and(&mut self, a: FormId, b: FormId) -> Result<FormId, Refusal> {
        match (self.below_persistence(a), self.below_persistence(b)) {
            (Some(first), Some(second)) => {
                let both = self.and(first, second)?;
                let always = self.globally(both)?;
                self.finally(always)
            }
            _ => self.and(a, b),
        }
    }

    /// `G F a || G F b` is `G F (a || b)`, and `(a U b) || G a` is `a W b`.
    pub(crate) fn rewritten_or(&mut self, a: FormId, b: FormId) -> Result<FormId, Refusal> {
        if let Some((first, second)) = self.weak_parts(a, b) {
            return self.weak_until(first, second);
        }
        match (self.below_recurrence(a), self.below_recurrence(b)) {
            (Some(first), Some(second)) => {
                let either = self.or(first, second)?;
                let once = self.finally(either)?;
                self.globally(once)
            }
            _ => self.or(a, b),
        }
    }

    /// `F (a U b)` is `F b`, `a U (b || G a)` is `a W b`, and `a U G !a` is `F !a && G (a || G !a)`.
    pub(crate) fn rewritten_until(&mut self, a: FormId, b: FormId) -> Result<FormId, Refusal> {
        if self.is(a, Form::True)
            && let Form::Until(_, last) = self.form(b)
        {
            return self.until(a, last);
        }
        if let Some(last) = self.beside_globally(a, b) {
            return self.weak_until(a, last);
        }
        if self.below_globally(b).is_some() && !self.operators(a).are_unbounded() {
            return self.until_for_good(a, b);
        }
        self.until(a, b)
    }

    /// `G (a R b)` is `G b`, and `G (x || a U b)` is `G (x || a W b) && G (x || F b)`.
    pub(crate) fn rewritten_release(&mut self, a: FormId, b: FormId) -> Result<FormId, Refusal> {
        if !self.is(a, Form::False) {
            return self.release(a, b);
        }
        if let Form::Release(_, last) = self.form(b) {
            return self.release(a, last);
        }
        self.globally_or_until(b)
    }

    /// The a of `F G a`.
    fn below_persistence(&self, id: FormId) -> Option<FormId> {
        self.below_globally(self.below_finally(id)?)
    }

    /// The a of `G F a`.
    fn below_recurrence(&self, id: FormId) -> Option<FormId> {
        self.below_finally(self.below_globally(id)?)
    }

    /// The a and b of `a U b` and `G a`, in either order.
    fn weak_parts(&self, one: FormId, other: FormId) -> Option<(FormId, FormId)> {
        match self.weak_parts_of(one, other) {
            Some(parts) => Some(parts),
            None => self.weak_parts_of(other, one),
        }
    }

    fn weak_parts_of(&self, until: FormId, globally: FormId) -> Option<(FormId, FormId)> {
        let always = self.below_globally(globally)?;
        match self.form(until) {
            Form::Until(a, b) if a == always => Some((a, b)),
            _ => None,
        }
    }

    /// The b of `b || G a`, in either order.
    fn beside_globally(&self, a: FormId, id: FormId) -> Option<FormId> {
        match self.form(id) {
            Form::Or(one, other) if self.below_globally(one) == Some(a) => Some(other),
            Form::Or(one, other) if self.below_globally(other) == Some(a) => Some(one),
            _ => None,
        }
    }

    /// `a U G !a`, where b is `G !a`.
    fn until_for_good(&mut self, a: FormId, b: FormId) -> Result<FormId, Refusal> {
        let never = self.opposite(a)?;
        if self.below_globally(b) != Some(never) {
            return self.until(a, b);
        }
        let ends = self.finally(never)?;
        let either = self.or(a, b)?;
        let always = self.globally(either)?;
        self.and(ends, always)
    }

    /// `G b`, in two where b is a disjunction with one until that isn't an F.
    fn globally_or_until(&mut self, b: FormId) -> Result<FormId, Refusal> {
        let disjuncts = self.disjuncts(b)?;
        let Some((place, first, last)) = self.only_until(&disjuncts) else {
            return self.globally(b);
        };
        let rest = self.all_but(&disjuncts, place)?;
        let weak = self.weak_until(first, last)?;
        let safe = self.or(rest, weak)?;
        let once = self.finally(last)?;
        let live = self.or(rest, once)?;
        let always_safe = self.globally(safe)?;
        let always_live = self.globally(live)?;
        self.and(always_safe, always_live)
    }

    /// The place and the parts of the one disjunct with an until, where it is an until and no F.
    fn only_until(&self, disjuncts: &[FormId]) -> Option<(usize, FormId, FormId)> {
        let mut found = None;
        for (place, disjunct) in disjuncts.iter().enumerate() {
            if self.operators(*disjunct).until {
                if found.is_some() {
                    return None;
                }
                found = Some((place, *disjunct));
            }
        }
        let (place, disjunct) = found?;
        match self.form(disjunct) {
            Form::Until(a, b) if !self.is(a, Form::True) && !self.operators(a).are_unbounded() => {
                Some((place, a, b))
            }
            _ => None,
        }
    }
}
