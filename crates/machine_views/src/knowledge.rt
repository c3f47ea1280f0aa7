//! What a document says in sentences: its verdict, and what is known of other sizes.

use crate::logs::{Ending, ending_of};
use crate::solved;
use document_text::Verdict;
use letters_and_lassos::Side;
use machine_table::{Part, Shown, ShownLog, Text};

/// Puts what is known of the machine.
pub(crate) fn put_known(shown: &Shown, out: &mut Text) {
    match shown {
        Shown::Circuit(_) => out.put("A circuit alone: nothing says what it is for."),
        Shown::Solved(document) => solved::put_known(document, out),
        Shown::Document(document) => {
            let (form, size) = sentence_of_verdict(document.verdict);
            out.fill(form, &[Part::Number(u64::from(size))]);
        }
    }
}

fn sentence_of_verdict(verdict: Verdict) -> (&'static str, u32) {
    match verdict {
        Verdict::Machine {
            side,
            states,
            least,
        } => (sentence_of_machine(side, least), states),
        Verdict::Unknown(_) => ("Nothing was found.", 0),
    }
}

fn sentence_of_machine(side: Side, least: bool) -> &'static str {
    match (side, least) {
        (Side::System, true) => "Realizable, by a controller of size {}. No smaller one exists.",
        (Side::System, false) => {
            "Realizable, by a controller of size {}, which needn't be the smallest."
        }
        (Side::Environment, true) => {
            "Unrealizable: this machine of size {} defeats every controller."
        }
        (Side::Environment, false) => {
            "Unrealizable: this machine of size {}, which needn't be the smallest, defeats every controller."
        }
    }
}

/// Puts a sentence on a log, which has at most so many entries.
pub(crate) fn put_size(log: ShownLog<'_>, most: Option<u64>, out: &mut Text) {
    let what = match log.side {
        Side::System => "controller",
        Side::Environment => "counter-machine",
    };
    let entries = log.entries.len() as u64;
    let word = if entries == 1 { "entry" } else { "entries" };
    let size = Part::Number(u64::from(log.size));
    let vars = Part::Number(u64::from(log.vars));
    let base = Part::Number(log.base);
    match (ending_of(log.entries, most), most) {
        (Ending::Closed, _) => out.fill(
            "No {} of size {} exists: its log of {} {}, over {} variables and {} clauses, is closed.",
            &[
                Part::Word(what),
                size,
                Part::Number(entries),
                Part::Word(word),
                vars,
                base,
            ],
        ),
        (_, Some(most)) => out.fill(
            "Whether a {} of size {} exists isn't known: its log, over {} variables and {} clauses, is full with {} entries.",
            &[Part::Word(what), size, vars, base, Part::Number(most)],
        ),
        (_, None) => out.fill(
            "Whether a {} of size {} exists isn't known: its log of {} {} isn't closed.",
            &[
                Part::Word(what),
                size,
                Part::Number(entries),
                Part::Word(word),
            ],
        ),
    }
}
