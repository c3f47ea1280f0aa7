//! A signal that is wanted, made of those that there are by at most two new gates.

use crate::decomposition::survey_steps;
use crate::wanted::{Form, Helper, Use, Wanted};
use signal_nets::{Net, opposite};
use std::alloc::AllocError;
use std::cmp::Reverse;

/// Among so many of the best helpers two are looked for that do together.
const MOST_IN_PAIRS: usize = 60;

/// So many of the best helpers are tried with a pair.
const MOST_LEADS: usize = 8;

/// The nodes that a signal may be made of, and how many looks at nodes and pairs are left.
#[derive(Drop)]
pub(crate) struct Divisors {
    pub(crate) nodes: Vec<usize>,
    pub(crate) width: usize,
    pub(crate) looks: usize,
    /// The steps that were taken.
    pub(crate) steps: usize,
}

impl Divisors {
    /// A literal that is what is wanted, with at most so many new gates, and at most two.
    pub(crate) fn literal(
        &mut self,
        net: &mut Net,
        wanted: &Wanted,
        gates: u32,
    ) -> Result<Option<u32>, AllocError> {
        let mut helpers = Vec::new(net.allocator());
        let near = self.near_literal(net, wanted, gates, &mut helpers)?;
        if gates < 2 || near.is_some() {
            return Ok(near);
        }
        for lead in helpers.iter().take(MOST_LEADS) {
            if self.looks == 0 {
                break;
            }
            let beside = wanted.beside(net.allocator(), net, *lead)?;
            let mut others = Vec::new(net.allocator());
            if let Some(other) = self.near_literal(net, &beside, 1, &mut others)? {
                return Ok(Some(join(net, lead.form, lead.literal, other)?));
            }
        }
        Ok(None)
    }

    /// A literal that is what is wanted, with at most one new gate, and with none where there may be none. Else the helpers are left, the
    /// best first.
    fn near_literal(
        &mut self,
        net: &mut Net,
        wanted: &Wanted,
        gates: u32,
        helpers: &mut Vec<Helper>,
    ) -> Result<Option<u32>, AllocError> {
        if let Some(constant) = wanted.constant() {
            return Ok(Some(constant));
        }
        if let Some(whole) = self.survey(net, wanted, helpers)? {
            return Ok(Some(whole));
        }
        if gates == 0 || self.looks == 0 {
            return Ok(None);
        }
        helpers.sort_by_cached_key(|helper| Reverse(helper.share))?;
        helpers.truncate(MOST_IN_PAIRS);
        match self.pair(net, wanted, helpers) {
            Some((form, one, other)) => Ok(Some(join(net, form, one, other)?)),
            None => Ok(None),
        }
    }

    /// A literal that is what is wanted; else the helpers are appended.
    fn survey(
        &mut self,
        net: &Net,
        wanted: &Wanted,
        helpers: &mut Vec<Helper>,
    ) -> Result<Option<u32>, AllocError> {
        self.looks = self.looks.saturating_sub(self.nodes.len());
        let steps = survey_steps(self.nodes.len(), self.width);
        self.steps = self.steps.saturating_add(steps);
        for node in &self.nodes {
            match wanted.use_of(net, *node) {
                Use::Whole(literal) => return Ok(Some(literal)),
                Use::Part(helper) => helpers.push(helper)?,
                Use::Nothing => {}
            }
        }
        Ok(None)
    }

    /// Two helpers of one form that do together.
    fn pair(&mut self, net: &Net, wanted: &Wanted, helpers: &[Helper]) -> Option<(Form, u32, u32)> {
        let pairs = helpers.len().saturating_mul(helpers.len()) / 4;
        self.looks = self.looks.saturating_sub(pairs);
        self.steps = self.steps.saturating_add(pairs.saturating_mul(8));
        for (place, one) in helpers.iter().enumerate() {
            for other in helpers.iter().take(place) {
                if is_same(one.form, other.form)
                    && wanted.is_met_by_both(net, one.form, one.literal, other.literal)
                {
                    return Some((one.form, other.literal, one.literal));
                }
            }
        }
        None
    }
}

fn is_same(one: Form, other: Form) -> bool {
    matches!((one, other), (Form::And, Form::And) | (Form::Or, Form::Or))
}

fn join(net: &mut Net, form: Form, one: u32, other: u32) -> Result<u32, AllocError> {
    match form {
        Form::And => net.and_anew(one, other),
        Form::Or => Ok(opposite(net.and_anew(opposite(one), opposite(other))?)),
    }
}
