//! Disjunctions as lists.

use crate::forms::{Form, FormId, Forms};
use crate::refusals::Refusal;

/// A disjunction has at most so many disjuncts.
const MOST_DISJUNCTS: usize = 10_000;

impl Forms {
    /// The disjuncts of a form, from left to right.
    pub(crate) fn disjuncts(&self, id: FormId) -> Result<Vec<FormId>, Refusal> {
        let mut open = vec![in self.alloc(); id]?;
        let mut disjuncts = Vec::new(self.alloc());
        for _ in 0..MOST_DISJUNCTS {
            let Some(own) = open.pop() else {
                return Ok(disjuncts);
            };
            match self.form(own) {
                Form::Or(a, b) => {
                    open.push(b)?;
                    open.push(a)?;
                }
                _ => disjuncts.push(own)?,
            }
        }
        Err(Refusal::TooManyForms)
    }

    /// The disjunction of all but one of a list.
    pub(crate) fn all_but(
        &mut self,
        disjuncts: &[FormId],
        left_out: usize,
    ) -> Result<FormId, Refusal> {
        let mut whole = self.add(Form::False)?;
        for (place, disjunct) in disjuncts.iter().enumerate() {
            if place != left_out {
                whole = self.or(whole, *disjunct)?;
            }
        }
        Ok(whole)
    }
}
