//! What a document of version 6 says in sentences.

use letters_and_lassos::{Kind, Side};
use machine_table::{Part, SolvedDocument, Text};
use solved_text::{Letters, Verdict};

/// Puts its verdict as one line, without its end.
pub(crate) fn put_verdict(document: &SolvedDocument, out: &mut Text) {
    let (form, size) = match document.verdict {
        Verdict::Realizable(size) => ("realizable, by a controller of size {}", size),
        Verdict::Unrealizable(size) => ("unrealizable, by a counter-machine of size {}", size),
        Verdict::Unknown => ("unknown, since no machine was found", 0),
    };
    out.fill(form, &[Part::Number(u64::from(size))]);
    if document.states().is_some() && !document.is_smallest() {
        out.put(", which needn't be the smallest");
    }
}

/// Puts what is known of its machine and of smaller ones, and what conversion means.
pub(crate) fn put_known(document: &SolvedDocument, out: &mut Text) {
    let (form, size) = match document.verdict {
        Verdict::Realizable(size) => ("Realizable, by a controller of size {}", size),
        Verdict::Unrealizable(size) => {
            (
                "Unrealizable: this machine of size {} defeats every controller",
                size,
            )
        }
        Verdict::Unknown => ("Nothing was found", 0),
    };
    out.fill(form, &[Part::Number(u64::from(size))]);
    if document.states().is_some() {
        put_smaller(document, out);
    }
    out.put(".");
    if document.semantics.is_some() {
        out.put(" Semantics of the text: ");
        put_semantics(document, out);
        out.put(".");
    }
}

fn put_smaller(document: &SolvedDocument, out: &mut Text) {
    let refuted = document.logs.len() as u64;
    if document.is_smallest() {
        out.put("; no smaller one exists");
    } else if refuted > 0 {
        out.fill("; none of size {} or less exists", &[Part::Number(refuted)]);
    } else {
        out.put("; whether a smaller one exists is open");
    }
}

/// Puts the semantics of a text that is converted, and what that means to who builds the machine: the inputs of a text of Moore's, and the outputs
/// of one of Mealy's, are those of the machine's next step.
pub(crate) fn put_semantics(document: &SolvedDocument, out: &mut Text) {
    let Some(semantics) = document.semantics else {
        return;
    };
    let signals = match semantics {
        Kind::Moore => "inputs",
        Kind::Mealy => "outputs",
    };
    let (whose, verb) = match (document.side(), semantics) {
        (Some(Side::Environment), Kind::Moore) => ("the counter-machine", "writes"),
        (Some(Side::Environment), Kind::Mealy) => ("the counter-machine", "reads"),
        (Some(Side::System), Kind::Moore) => ("the controller", "reads"),
        (Some(Side::System), Kind::Mealy) => ("the controller", "writes"),
        (None, Kind::Moore) => ("a controller", "reads"),
        (None, Kind::Mealy) => ("a controller", "writes"),
    };
    out.fill(
        "{}; the {} that the text has at a step are those that {} {} one step later, and no formula speaks of the first ones",
        &[
            Part::Word(semantics.word()),
            Part::Word(signals),
            Part::Word(whose),
            Part::Word(verb),
        ],
    );
}

/// Puts the letters over which base clauses are, with that between two of them.
pub(crate) fn put_letters(letters: &Letters, joint: &str, out: &mut Text) {
    match letters {
        Letters::All => out.put("all"),
        Letters::Few(list) => {
            for (place, number) in list.numbers().iter().enumerate() {
                out.put(if place == 0 { "" } else { joint });
                out.put_number(u64::from(*number));
            }
        }
    }
}
