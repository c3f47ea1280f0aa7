//! Rules of rewriting on forms and lassos that are drawn.

use crate::drawn_forms::{Ruled, drawn_form, drawn_word, ruled_form};
use conjuncts::{FormId, Forms, Refusal};
use rand_pcg::Pcg32;
use std::alloc::{AllocError, Global};

/// How many forms are drawn of each sort, and words for each.
const FORMS: u32 = 40;

const WORDS: u32 = 12;

/// The left sides of the rules, and forms of any kind.
const SORTS: [(Ruled, &str); 9] = [
    (Ruled::Persistences, "F G a && F G b"),
    (Ruled::Recurrences, "G F a || G F b"),
    (Ruled::WeakUntil, "a U b || G a"),
    (Ruled::FinallyUntil, "F (a U b)"),
    (Ruled::UntilOrGlobally, "a U (b || G a)"),
    (Ruled::UntilForGood, "a U G !a"),
    (Ruled::GloballyRelease, "G (a R b)"),
    (Ruled::GloballyUntil, "G (c || a U b)"),
    (Ruled::Any, "any form"),
];

/// What is counted over the forms of one sort.
#[derive(Clone, Copy)]
struct Tally {
    /// The forms that rewriting changed.
    changed: u32,
    /// The words on which the truth changed, or the negation isn't the opposite.
    differ: u32,
}

/// A line for each sort.
pub(crate) fn push_rules(alloc: Global, out: &mut Vec<u8>) -> Result<(), AllocError> {
    let mut random = Pcg32::new(44, 54);
    for (sort, name) in SORTS {
        let tally = match tally_of(alloc, sort, &mut random) {
            Ok(tally) => tally,
            Err(Refusal::NoMemory) => return Err(AllocError),
            Err(_) => Tally {
                changed: 0,
                differ: 1,
            },
        };
        out.extend_from_slice(name.as_bytes())?;
        out.extend_from_slice(tally.words())?;
    }
    Ok(())
}

impl Tally {
    fn words(self) -> &'static [u8] {
        match (self.differ, self.changed > FORMS / 4) {
            (0, true) => b": rewritten, with the same truth\n",
            (0, false) => b": not rewritten\n",
            _ => b": rewritten, with another truth\n",
        }
    }
}

fn tally_of(alloc: Global, sort: Ruled, random: &mut Pcg32) -> Result<Tally, Refusal> {
    let mut tally = Tally {
        changed: 0,
        differ: 0,
    };
    for _ in 0..FORMS {
        tally.take_form(alloc, sort, random)?;
    }
    Ok(tally)
}

impl Tally {
    /// Draws a form and words.
    fn take_form(&mut self, alloc: Global, sort: Ruled, random: &mut Pcg32) -> Result<(), Refusal> {
        let mut forms = Forms::new(alloc);
        let whole = match sort {
            Ruled::Any => drawn_form(alloc, &mut forms, random)?,
            _ => ruled_form(&mut forms, random, sort)?,
        };
        let rewritten = forms.rewritten(whole)?;
        let opposite = forms.opposite(rewritten)?;
        if rewritten != whole {
            self.changed = self.changed.saturating_add(1);
        }
        for _ in 0..WORDS {
            if is_another(alloc, random, &forms, [whole, rewritten, opposite])? {
                self.differ = self.differ.saturating_add(1);
            }
        }
        Ok(())
    }
}

/// Whether on a word that is drawn a form and its rewriting differ, or the opposite is no opposite.
fn is_another(
    alloc: Global,
    random: &mut Pcg32,
    forms: &Forms,
    ids: [FormId; 3],
) -> Result<bool, AllocError> {
    let [whole, rewritten, opposite] = ids;
    let word = drawn_word(alloc, random)?;
    let truth = word.is_true(alloc, forms, whole)?;
    let after = word.is_true(alloc, forms, rewritten)?;
    let against = word.is_true(alloc, forms, opposite)?;
    Ok(after != truth || against == truth)
}
