//! Formulas in normal form, kept once each.

use crate::refusals::Refusal;
use indexmap::IndexSet;
use std::alloc::{AllocError, Global};

/// The place of a form in its list, from 0.
#[derive(Clone, Copy, Debug, PartialEq, Eq, Hash)]
pub struct FormId(pub u32);

/// A formula in normal form, over earlier ones.
#[derive(Clone, Copy, Debug, PartialEq, Eq, Hash)]
pub enum Form {
    True,
    False,
    Literal(u32, bool),
    Next(FormId),
    And(FormId, FormId),
    Or(FormId, FormId),
    Until(FormId, FormId),
    Release(FormId, FormId),
}

/// Which operators of time stand in a form.
#[derive(Clone, Copy, Debug, PartialEq, Eq)]
pub struct Operators {
    pub next: bool,
    pub until: bool,
    pub release: bool,
}

impl Operators {
    const NONE: Operators = Operators {
        next: false,
        until: false,
        release: false,
    };

    fn or(self, other: Operators) -> Operators {
        Operators {
            next: self.next || other.next,
            until: self.until || other.until,
            release: self.release || other.release,
        }
    }

    /// Whether the form speaks of the current letter alone.
    pub fn are_none(self) -> bool {
        !(self.next || self.until || self.release)
    }

    /// Whether the form speaks of letters without a bound.
    pub fn are_unbounded(self) -> bool {
        self.until || self.release
    }
}

/// A list of different forms. The parts of each stand before it.
#[derive(Drop)]
pub struct Forms {
    forms: IndexSet<Form>,
    operators: Vec<Operators>,
    alloc: Global,
}

/// A list has at most so many forms.
const MOST_FORMS: usize = 100_000;

impl Form {
    /// The forms that it is made of.
    pub fn parts(self) -> (Option<FormId>, Option<FormId>) {
        match self {
            Form::True | Form::False | Form::Literal(_, _) => (None, None),
            Form::Next(a) => (Some(a), None),
            Form::And(a, b) | Form::Or(a, b) | Form::Until(a, b) | Form::Release(a, b) => {
                (Some(a), Some(b))
            }
        }
    }

    fn is_constant(self) -> bool {
        self == Form::True || self == Form::False
    }
}

impl Forms {
    pub fn new(alloc: Global) -> Forms {
        Forms {
            forms: IndexSet::new(alloc),
            operators: Vec::new(alloc),
            alloc,
        }
    }

    pub(crate) fn alloc(&self) -> Global {
        self.alloc
    }

    /// The form of an id; `true` where there is none.
    pub fn form(&self, id: FormId) -> Form {
        match self.forms.get_index(id.0 as usize) {
            Some(form) => *form,
            None => Form::True,
        }
    }

    pub fn operators(&self, id: FormId) -> Operators {
        match self.operators.get(id.0 as usize) {
            Some(operators) => *operators,
            None => Operators::NONE,
        }
    }

    /// The id of a form, which is new or was met before.
    pub fn add(&mut self, form: Form) -> Result<FormId, Refusal> {
        let operators = self.operators_of(form);
        let (place, is_new) = self.forms.insert_full(form)?;
        if is_new {
            self.operators.push(operators)?;
        }
        if place >= MOST_FORMS {
            return Err(Refusal::TooManyForms);
        }
        Ok(FormId(u32::try_from(place).unwrap_or(0)))
    }

    fn operators_of(&self, form: Form) -> Operators {
        let (first, second) = form.parts();
        let below = self.maybe(first).or(self.maybe(second));
        match form {
            Form::Next(_) => Operators {
                next: true,
                ..below
            },
            Form::Until(_, _) => Operators {
                until: true,
                ..below
            },
            Form::Release(_, _) => Operators {
                release: true,
                ..below
            },
            _ => below,
        }
    }

    fn maybe(&self, id: Option<FormId>) -> Operators {
        match id {
            Some(id) => self.operators(id),
            None => Operators::NONE,
        }
    }

    pub(crate) fn is(&self, id: FormId, form: Form) -> bool {
        self.form(id) == form
    }

    pub(crate) fn next(&mut self, a: FormId) -> Result<FormId, Refusal> {
        if self.form(a).is_constant() {
            return Ok(a);
        }
        self.add(Form::Next(a))
    }

    pub(crate) fn and(&mut self, a: FormId, b: FormId) -> Result<FormId, Refusal> {
        if a == b || self.is(b, Form::True) || self.is(a, Form::False) {
            return Ok(a);
        }
        if self.is(a, Form::True) || self.is(b, Form::False) {
            return Ok(b);
        }
        self.add(Form::And(a, b))
    }

    pub(crate) fn or(&mut self, a: FormId, b: FormId) -> Result<FormId, Refusal> {
        if a == b || self.is(b, Form::False) || self.is(a, Form::True) {
            return Ok(a);
        }
        if self.is(a, Form::False) || self.is(b, Form::True) {
            return Ok(b);
        }
        self.add(Form::Or(a, b))
    }

    pub(crate) fn until(&mut self, a: FormId, b: FormId) -> Result<FormId, Refusal> {
        if self.form(b).is_constant() {
            return Ok(b);
        }
        self.add(Form::Until(a, b))
    }

    pub(crate) fn release(&mut self, a: FormId, b: FormId) -> Result<FormId, Refusal> {
        if self.form(b).is_constant() {
            return Ok(b);
        }
        self.add(Form::Release(a, b))
    }

    /// `G a`.
    pub(crate) fn globally(&mut self, a: FormId) -> Result<FormId, Refusal> {
        let never = self.add(Form::False)?;
        self.release(never, a)
    }

    /// `F a`.
    pub(crate) fn finally(&mut self, a: FormId) -> Result<FormId, Refusal> {
        let always = self.add(Form::True)?;
        self.until(always, a)
    }

    /// `a W b`, as a release: b may be away as long as a is there.
    pub(crate) fn weak_until(&mut self, a: FormId, b: FormId) -> Result<FormId, Refusal> {
        let either = self.or(a, b)?;
        self.release(b, either)
    }

    /// The a of `G a`.
    pub(crate) fn below_globally(&self, id: FormId) -> Option<FormId> {
        match self.form(id) {
            Form::Release(first, a) if self.is(first, Form::False) => Some(a),
            _ => None,
        }
    }

    /// The a of `F a`.
    pub(crate) fn below_finally(&self, id: FormId) -> Option<FormId> {
        match self.form(id) {
            Form::Until(first, a) if self.is(first, Form::True) => Some(a),
            _ => None,
        }
    }

    /// Which forms up to this one it is made of.
    pub fn cone(&self, id: FormId) -> Result<Vec<bool>, AllocError> {
        let size = (id.0 as usize).saturating_add(1).min(self.forms.len());
        let mut marks = vec![in self.alloc; false; size]?;
        mark(&mut marks, Some(id));
        for behind in 1..=size {
            let place = size - behind;
            if marks.get(place).copied() == Some(true) {
                let (first, second) = self.form(FormId(u32::try_from(place).unwrap_or(0))).parts();
                mark(&mut marks, first);
                mark(&mut marks, second);
            }
        }
        Ok(marks)
    }
}

fn mark(marks: &mut [bool], id: Option<FormId>) {
    if let Some(id) = id
        && let Some(own) = marks.get_mut(id.0 as usize)
    {
        *own = true;
    }
}
