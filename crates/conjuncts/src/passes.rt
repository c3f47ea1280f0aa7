//! Passes over the parts of a form, those below first.

use crate::forms::{Form, FormId, Forms};
use crate::refusals::Refusal;

impl Forms {
    /// The negation of a form, rewritten.
    pub(crate) fn negated(&mut self, id: FormId) -> Result<FormId, Refusal> {
        let negation = self.opposite(id)?;
        self.rewritten(negation)
    }

    /// The negation of a form.
    pub fn opposite(&mut self, id: FormId) -> Result<FormId, Refusal> {
        let cone = self.cone(id)?;
        let mut made = Vec::new(self.alloc());
        for (place, is_needed) in (0u32..u32::MAX).zip(&cone) {
            let form = if *is_needed {
                self.negated_step(FormId(place), &made)?
            } else {
                FormId(0)
            };
            made.push(form)?;
        }
        Ok(made_of(&made, id))
    }

    /// A form with the same truth at each position of each lasso, whose conjuncts have small monitors.
    pub fn rewritten(&mut self, id: FormId) -> Result<FormId, Refusal> {
        let cone = self.cone(id)?;
        let mut made = Vec::new(self.alloc());
        for (place, is_needed) in (0u32..u32::MAX).zip(&cone) {
            let form = if *is_needed {
                self.rewritten_step(FormId(place), &made)?
            } else {
                FormId(0)
            };
            made.push(form)?;
        }
        Ok(made_of(&made, id))
    }

    fn negated_step(&mut self, id: FormId, made: &[FormId]) -> Result<FormId, Refusal> {
        match self.form(id) {
            Form::True => self.add(Form::False),
            Form::False => self.add(Form::True),
            Form::Literal(signal, value) => self.add(Form::Literal(signal, !value)),
            Form::Next(a) => self.next(made_of(made, a)),
            Form::And(a, b) => self.or(made_of(made, a), made_of(made, b)),
            Form::Or(a, b) => self.and(made_of(made, a), made_of(made, b)),
            Form::Until(a, b) => self.release(made_of(made, a), made_of(made, b)),
            Form::Release(a, b) => self.until(made_of(made, a), made_of(made, b)),
        }
    }

    fn rewritten_step(&mut self, id: FormId, made: &[FormId]) -> Result<FormId, Refusal> {
        match self.form(id) {
            Form::True | Form::False | Form::Literal(_, _) => Ok(id),
            Form::Next(a) => self.next(made_of(made, a)),
            Form::And(a, b) => self.rewritten_and(made_of(made, a), made_of(made, b)),
            Form::Or(a, b) => self.rewritten_or(made_of(made, a), made_of(made, b)),
            Form::Until(a, b) => self.rewritten_until(made_of(made, a), made_of(made, b)),
            Form::Release(a, b) => self.rewritten_release(made_of(made, a), made_of(made, b)),
        }
    }
}

fn made_of(made: &[FormId], id: FormId) -> FormId {
    match made.get(id.0 as usize) {
        Some(form) => *form,
        None => id,
    }
}
