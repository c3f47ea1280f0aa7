//! Conjunctions as lists.

use crate::forms::{Form, FormId, Forms};
use crate::refusals::Refusal;

/// A conjunction has at most so many conjuncts.
const MOST_CONJUNCTS: usize = 10_000;

impl Forms {
    /// Forms that hold together where this one holds, from left to right.
    pub(crate) fn apart(&mut self, id: FormId) -> Result<Vec<FormId>, Refusal> {
        let mut open = vec![in self.alloc(); id]?;
        let mut conjuncts = Vec::new(self.alloc());
        for _ in 0..MOST_CONJUNCTS {
            let Some(own) = open.pop() else {
                return Ok(conjuncts);
            };
            match self.both_of(own)? {
                Some((first, second)) => {
                    open.push(second)?;
                    open.push(first)?;
                }
                None if self.is(own, Form::True) => {}
                None => conjuncts.push(own)?,
            }
        }
        Err(Refusal::TooManyForms)
    }

    /// Two forms that hold together where this one holds.
    fn both_of(&mut self, id: FormId) -> Result<Option<(FormId, FormId)>, Refusal> {
        match self.form(id) {
            Form::And(a, b) => Ok(Some((a, b))),
            Form::Next(a) => self.both_of_next(a),
            Form::Release(never, a) if self.is(never, Form::False) => self.both_of_globally(a),
            Form::Or(_, _) if self.has_class(id) => self.both_of_or(id),
            _ => Ok(None),
        }
    }

    /// `X (a && b)` is `X a && X b`.
    fn both_of_next(&mut self, below: FormId) -> Result<Option<(FormId, FormId)>, Refusal> {
        let Form::And(a, b) = self.form(below) else {
            return Ok(None);
        };
        let first = self.next(a)?;
        let second = self.next(b)?;
        Ok(Some((first, second)))
    }

    /// `G (a && b)` is `G a && G b`.
    fn both_of_globally(&mut self, below: FormId) -> Result<Option<(FormId, FormId)>, Refusal> {
        let both = match self.form(below) {
            Form::And(a, b) => Some((a, b)),
            _ => self.both_of_or(below)?,
        };
        let Some((a, b)) = both else {
            return Ok(None);
        };
        let first = self.globally(a)?;
        let second = self.globally(b)?;
        Ok(Some((first, second)))
    }

    /// `x || (a && b)` is `(x || a) && (x || b)`, where a and b both speak of later letters.
    fn both_of_or(&mut self, id: FormId) -> Result<Option<(FormId, FormId)>, Refusal> {
        let disjuncts = self.disjuncts(id)?;
        let Some((place, a, b)) = self.first_and(&disjuncts) else {
            return Ok(None);
        };
        let rest = self.all_but(&disjuncts, place)?;
        let first = self.or(rest, a)?;
        let second = self.or(rest, b)?;
        Ok(Some((first, second)))
    }

    fn first_and(&self, disjuncts: &[FormId]) -> Option<(usize, FormId, FormId)> {
        for (place, disjunct) in disjuncts.iter().enumerate() {
            if let Some((a, b)) = self.and_of_later(*disjunct) {
                return Some((place, a, b));
            }
        }
        None
    }

    /// The parts of a conjunction that both speak of later letters.
    fn and_of_later(&self, id: FormId) -> Option<(FormId, FormId)> {
        match self.form(id) {
            Form::And(a, b) if !self.operators(a).are_none() && !self.operators(b).are_none() => {
                Some((a, b))
            }
            _ => None,
        }
    }
}
