//! Forms and words that are drawn.

use crate::lassos::Word;
use conjuncts::{Form, FormId, Forms, Refusal};
use rand_core::utils::NextWord;
use rand_pcg::Pcg32;
use std::alloc::{AllocError, Global};

/// A sort of forms: the left side of a rule of rewriting, or any.
#[derive(Clone, Copy)]
pub(crate) enum Ruled {
    Persistences,
    Recurrences,
    WeakUntil,
    FinallyUntil,
    UntilOrGlobally,
    UntilForGood,
    GloballyRelease,
    GloballyUntil,
    Any,
}

pub(crate) fn drawn_word(alloc: Global, random: &mut Pcg32) -> Result<Word, AllocError> {
    let mut letters = Vec::new(alloc);
    for _ in 0..=random.next_word() % 6 {
        letters.push(u64::from(random.next_word() % 8))?;
    }
    let count = u32::try_from(letters.len()).unwrap_or(1).max(1);
    Ok(Word {
        back: (random.next_word() % count) as usize,
        letters,
    })
}

/// A form over three signals: from literals up, each step joins two of the forms before it.
pub(crate) fn drawn_form(
    alloc: Global,
    forms: &mut Forms,
    random: &mut Pcg32,
) -> Result<FormId, Refusal> {
    let mut made = Vec::new(alloc);
    for _ in 0..4 {
        made.push(literal(forms, random)?)?;
    }
    let mut last = FormId(0);
    for _ in 0..10 {
        let a = one_of(&made, random);
        let b = one_of(&made, random);
        last = forms.add(drawn_step(random, a, b))?;
        made.push(last)?;
    }
    Ok(last)
}

fn literal(forms: &mut Forms, random: &mut Pcg32) -> Result<FormId, Refusal> {
    let signal = random.next_word() % 3;
    forms.add(Form::Literal(signal, random.next_word() % 2 == 0))
}

fn one_of(made: &[FormId], random: &mut Pcg32) -> FormId {
    let count = u32::try_from(made.len()).unwrap_or(1).max(1);
    let place = random.next_word() % count;
    made.get(place as usize).copied().unwrap_or(FormId(0))
}

fn drawn_step(random: &mut Pcg32, a: FormId, b: FormId) -> Form {
    match random.next_word() % 7 {
        0 => Form::And(a, b),
        1 | 2 => Form::Or(a, b),
        3 | 4 => Form::Until(a, b),
        5 => Form::Release(a, b),
        _ => Form::Next(a),
    }
}

/// A form to which a rule applies.
pub(crate) fn ruled_form(
    forms: &mut Forms,
    random: &mut Pcg32,
    rule: Ruled,
) -> Result<FormId, Refusal> {
    let a = near_form(forms, random)?;
    let b = near_form(forms, random)?;
    let c = near_form(forms, random)?;
    match rule {
        Ruled::Persistences => {
            let (first, second) = (persistence(forms, a)?, persistence(forms, b)?);
            forms.add(Form::And(first, second))
        }
        Ruled::Recurrences => {
            let (first, second) = (recurrence(forms, a)?, recurrence(forms, b)?);
            forms.add(Form::Or(first, second))
        }
        Ruled::WeakUntil => {
            let (until, always) = (forms.add(Form::Until(a, b))?, globally(forms, a)?);
            forms.add(Form::Or(until, always))
        }
        Ruled::FinallyUntil => {
            let until = forms.add(Form::Until(a, b))?;
            finally(forms, until)
        }
        Ruled::UntilOrGlobally => {
            let always = globally(forms, a)?;
            let either = forms.add(Form::Or(b, always))?;
            forms.add(Form::Until(a, either))
        }
        Ruled::UntilForGood => {
            let never = forms.opposite(a)?;
            let always = globally(forms, never)?;
            forms.add(Form::Until(a, always))
        }
        Ruled::GloballyRelease => {
            let release = forms.add(Form::Release(a, b))?;
            globally(forms, release)
        }
        Ruled::GloballyUntil | Ruled::Any => {
            let until = forms.add(Form::Until(a, b))?;
            let either = forms.add(Form::Or(c, until))?;
            globally(forms, either)
        }
    }
}

/// A form over letters that are near: a literal, or two joined, or what comes next.
fn near_form(forms: &mut Forms, random: &mut Pcg32) -> Result<FormId, Refusal> {
    let a = literal(forms, random)?;
    let b = literal(forms, random)?;
    match random.next_word() % 4 {
        0 => forms.add(Form::And(a, b)),
        1 => forms.add(Form::Or(a, b)),
        2 => forms.add(Form::Next(a)),
        _ => Ok(a),
    }
}

fn globally(forms: &mut Forms, a: FormId) -> Result<FormId, Refusal> {
    let never = forms.add(Form::False)?;
    forms.add(Form::Release(never, a))
}

fn finally(forms: &mut Forms, a: FormId) -> Result<FormId, Refusal> {
    let always = forms.add(Form::True)?;
    forms.add(Form::Until(always, a))
}

fn recurrence(forms: &mut Forms, a: FormId) -> Result<FormId, Refusal> {
    let once = finally(forms, a)?;
    globally(forms, once)
}

fn persistence(forms: &mut Forms, a: FormId) -> Result<FormId, Refusal> {
    let always = globally(forms, a)?;
    finally(forms, always)
}
