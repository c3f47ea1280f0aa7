//! What the forms of a conjunct ask of a letter and leave for the next: diagrams that end in alternatives.

use crate::alternatives::{AllAlternatives, DONE, NOTHING};
use crate::diagrams::{Diagrams, Order};
use crate::obligations::{MOST_OBLIGATIONS, Obligations};
use crate::stops::{Limit, Meter, Stop};
use conjuncts::{Form, FormId, Forms};
use indexmap::IndexSet;
use std::alloc::Global;
use std::collections::HashMap;

/// How two diagrams are joined.
#[derive(Clone, Copy, PartialEq, Eq, Hash)]
pub(crate) enum Joint {
    Both,
    Either,
}

/// Two diagrams that are joined.
#[derive(Clone, Copy, PartialEq, Eq, Hash)]
struct Joined {
    joint: Joint,
    one: u32,
    other: u32,
}

/// The expansions of the forms of one conjunct.
#[derive(Drop)]
pub(crate) struct Expansions {
    pub(crate) diagrams: Diagrams,
    pub(crate) alternatives: AllAlternatives,
    /// The forms that are obligations, by their numbers.
    obligations: IndexSet<FormId>,
    /// The diagram of each form.
    expanded: Vec<u32>,
    joined: HashMap<Joined, u32>,
    order: Order,
}

/// No state has more alternatives.
const MOST_ALTERNATIVES: usize = 2_000;

/// Diagrams have fewer levels.
pub(crate) const MOST_LEVELS: u32 = 70;

impl Expansions {
    /// The expansions of a form and of all that it is made of.
    pub(crate) fn new(
        alloc: Global,
        forms: &Forms,
        root: FormId,
        order: Order,
        meter: &mut Meter,
    ) -> Result<Expansions, Stop> {
        let mut diagrams = Diagrams::new(alloc);
        diagrams.end(NOTHING, false)?;
        diagrams.end(DONE, false)?;
        let mut expansions = Expansions {
            diagrams,
            alternatives: AllAlternatives::new(alloc)?,
            obligations: IndexSet::new(alloc),
            expanded: Vec::new(alloc),
            joined: HashMap::new(alloc),
            order,
        };
        let cone = forms.cone(root)?;
        for (place, is_needed) in (0u32..u32::MAX).zip(&cone) {
            let node = if *is_needed {
                expansions.expansion(forms, FormId(place), meter)?
            } else {
                NOTHING
            };
            expansions.expanded.push(node)?;
        }
        Ok(expansions)
    }

    /// The alternative of one obligation.
    pub(crate) fn obliged(&mut self, form: FormId, meter: &Meter) -> Result<u32, Stop> {
        let (number, _is_new) = self.obligations.insert_full(form)?;
        if number >= MOST_OBLIGATIONS {
            return Err(meter.passed(Limit::Obligations));
        }
        let only = Obligations::of(u32::try_from(number).unwrap_or(0));
        Ok(self.alternatives.only(only)?)
    }

    /// The diagram of a form.
    pub(crate) fn of_form(&self, form: FormId) -> u32 {
        match self.expanded.get(form.0 as usize) {
            Some(node) => *node,
            None => NOTHING,
        }
    }

    /// The diagram of alternatives of obligations.
    pub(crate) fn of_alternatives(&mut self, number: u32, meter: &mut Meter) -> Result<u32, Stop> {
        let mut whole = NOTHING;
        for place in 0..self.alternatives.size(number) {
            let Some(obligations) = self.alternatives.of(number).get(place).copied() else {
                break;
            };
            let node = self.of_obligations(obligations, meter)?;
            whole = self.join(Joint::Either, whole, node, MOST_LEVELS, meter)?;
        }
        Ok(whole)
    }

    fn of_obligations(&mut self, obligations: Obligations, meter: &mut Meter) -> Result<u32, Stop> {
        let mut whole = DONE;
        for number in 0..self.obligations.len() {
            let form = self.obligations.get_index(number).copied();
            if let Some(form) = form
                && obligations.has(u32::try_from(number).unwrap_or(u32::MAX))
            {
                let node = self.of_form(form);
                whole = self.join(Joint::Both, whole, node, MOST_LEVELS, meter)?;
            }
        }
        Ok(whole)
    }

    fn expansion(&mut self, forms: &Forms, form: FormId, meter: &mut Meter) -> Result<u32, Stop> {
        match forms.form(form) {
            Form::True => Ok(DONE),
            Form::False => Ok(NOTHING),
            Form::Literal(signal, value) => self.literal(signal, value),
            Form::Next(a) => self.later(a, meter),
            Form::And(a, b) => self.join_forms(Joint::Both, a, b, meter),
            Form::Or(a, b) => self.join_forms(Joint::Either, a, b, meter),
            Form::Until(a, b) => self.until(form, a, b, meter),
            Form::Release(a, b) => self.release(form, a, b, meter),
        }
    }

    fn literal(&mut self, signal: u32, value: bool) -> Result<u32, Stop> {
        let level = self.order.level_of(signal);
        if value {
            Ok(self.diagrams.split(level, NOTHING, DONE)?)
        } else {
            Ok(self.diagrams.split(level, DONE, NOTHING)?)
        }
    }

    /// That a form holds at the next letter.
    fn later(&mut self, form: FormId, meter: &Meter) -> Result<u32, Stop> {
        let obliged = self.obliged(form, meter)?;
        Ok(self.diagrams.end(obliged, false)?)
    }

    fn join_forms(
        &mut self,
        joint: Joint,
        a: FormId,
        b: FormId,
        meter: &mut Meter,
    ) -> Result<u32, Stop> {
        let (one, other) = (self.of_form(a), self.of_form(b));
        self.join(joint, one, other, MOST_LEVELS, meter)
    }

    /// `a U b` is `b || (a && X (a U b))`.
    fn until(
        &mut self,
        form: FormId,
        a: FormId,
        b: FormId,
        meter: &mut Meter,
    ) -> Result<u32, Stop> {
        let later = self.later(form, meter)?;
        let waits = self.join(Joint::Both, self.of_form(a), later, MOST_LEVELS, meter)?;
        self.join(Joint::Either, self.of_form(b), waits, MOST_LEVELS, meter)
    }

    /// `a R b` is `b && (a || X (a R b))`.
    fn release(
        &mut self,
        form: FormId,
        a: FormId,
        b: FormId,
        meter: &mut Meter,
    ) -> Result<u32, Stop> {
        let later = self.later(form, meter)?;
        let goes_on = self.join(Joint::Either, self.of_form(a), later, MOST_LEVELS, meter)?;
        self.join(Joint::Both, self.of_form(b), goes_on, MOST_LEVELS, meter)
    }

    /// Two diagrams joined, which have fewer levels than are left.
    pub(crate) fn join(
        &mut self,
        joint: Joint,
        one: u32,
        other: u32,
        left: u32,
        meter: &mut Meter,
    ) -> Result<u32, Stop> {
        if let Some(known) = joined_at_once(joint, one, other) {
            return Ok(known);
        }
        let key = Joined {
            joint,
            one: one.min(other),
            other: one.max(other),
        };
        if let Some(known) = self.joined.get(&key) {
            return Ok(*known);
        }
        if left == 0 {
            return Err(Stop::NoShape);
        }
        let level = self.diagrams.level(one).min(self.diagrams.level(other));
        let node = if level == u32::MAX {
            self.join_ends(joint, one, other, meter)?
        } else {
            let (one_low, one_high) = self.diagrams.halves(one, level);
            let (other_low, other_high) = self.diagrams.halves(other, level);
            let low = self.join(joint, one_low, other_low, left - 1, meter)?;
            let high = self.join(joint, one_high, other_high, left - 1, meter)?;
            self.diagrams.split(level, low, high)?
        };
        self.joined.insert(key, node)?;
        Ok(node)
    }

    fn join_ends(
        &mut self,
        joint: Joint,
        one: u32,
        other: u32,
        meter: &mut Meter,
    ) -> Result<u32, Stop> {
        let (Some(one), Some(other)) = (self.diagrams.if_end(one), self.diagrams.if_end(other))
        else {
            return Ok(NOTHING);
        };
        let first = self.alternatives.size(one.place);
        let second = self.alternatives.size(other.place);
        meter.take_steps(first.saturating_mul(second))?;
        let made = match joint {
            Joint::Both => self.alternatives.both(one.place, other.place)?,
            Joint::Either => self.alternatives.either(one.place, other.place)?,
        };
        let size = self.alternatives.size(made);
        if size > MOST_ALTERNATIVES {
            return Err(meter.passed(Limit::Alternatives));
        }
        meter.take_bytes(size.saturating_mul(16).saturating_add(100))?;
        Ok(self.diagrams.end(made, false)?)
    }
}

/// What two diagrams come to where one of them is an end that decides, or both are the same. Node 0 ends in no alternatives, and node 1
/// in the one without obligations.
fn joined_at_once(joint: Joint, one: u32, other: u32) -> Option<u32> {
    let (neutral, ruling) = match joint {
        Joint::Both => (DONE, NOTHING),
        Joint::Either => (NOTHING, DONE),
    };
    if one == other || other == neutral || one == ruling {
        return Some(one);
    }
    if one == neutral || other == ruling {
        return Some(other);
    }
    None
}
