use crate::text_faults::{Source, push_formula};
use crate::unknown::{Count, push_numbers};
use document_text::Verdict;
use letters_and_lassos::Side;
use outcome_news::{Guarantees, Told};
use std::alloc::{AllocError, Global};
use std::fmt::Write;

/// Appends what a search found, in one line; a core's guarantees as they are written come below.
pub(crate) fn push_answer(
    alloc: Global,
    source: Source<'_>,
    told: Option<Told>,
    out: &mut String,
) -> Result<(), AllocError> {
    match told {
        Some(Told::Searched(searched)) => push_verdict(source.name, searched.verdict, out),
        Some(Told::Core(core)) => push_core(alloc, source, core, out),
        _ => Ok(()),
    }
}

/// Appends what a document says.
fn push_verdict(name: &str, verdict: Verdict, out: &mut String) -> Result<(), AllocError> {
    write!(out, "{name}: ")?;
    match verdict {
        Verdict::Machine {
            side,
            states,
            least: true,
        } => push_smallest(side, u64::from(states), out),
        Verdict::Machine { states, .. } => {
            out.push_str("a machine with ")?;
            Count(u64::from(states)).push_to("state", out)?;
            out.push_str(" wins, and whether one with fewer does isn't known\n")
        },
        Verdict::Unknown(_) => out.push_str("unknown\n"),
    }
}

/// Appends that the least machine of a side has so many states.
fn push_smallest(side: Side, states: u64, out: &mut String) -> Result<(), AllocError> {
    out.push_str(match side {
        Side::System => "realizable with ",
        Side::Environment => "unrealizable: the environment wins with ",
    })?;
    Count(states).push_to("state", out)?;
    out.push_str(if states == 1 {
        "\n"
    } else {
        ", and not with fewer\n"
    })
}

fn push_core(
    alloc: Global,
    source: Source<'_>,
    core: Guarantees,
    out: &mut String,
) -> Result<(), AllocError> {
    let name = source.name;
    let total = core.total;
    let guarantees = core.numbers(alloc)?;
    match guarantees.as_slice() {
        [] => writeln!(
            out,
            "{name}: core: the text can't be met, whatever its {total} guarantees are"
        )?,
        [_] => {
            write!(out, "{name}: core: guarantee ")?;
            push_numbers(&guarantees, out)?;
            writeln!(out, " of {total} can't be met")?;
        },
        _ => {
            write!(out, "{name}: core: guarantees ")?;
            push_numbers(&guarantees, out)?;
            writeln!(out, " of {total} can't be met together")?;
        },
    }
    for number in &guarantees {
        push_formula(alloc, source, *number, out)?;
    }
    Ok(())
}
