//! Why `solve` found neither a controller nor a counter-strategy, and what may help.

use crate::nexts::{Next, push_next, push_too_large};
use crate::solved::{Solved, further, longer, push_end, push_time};
use letters_and_lassos::{Kind, Side};
use outcome_news::{
    ConjunctEnd, ConjunctLimit, End, Limit, NotWon, Refuted, RefutingEnd, Unsolved, Unwon, Withheld,
};
use program_words::{MOST_REFUTED, Solving};
use std::alloc::AllocError;
use std::fmt::Write;

/// Appends why neither was found, and what may help, where the machines would be of that kind.
pub(crate) fn push_unsolved(
    solved: Solved<'_>,
    kind: Kind,
    why: Unsolved,
    conjuncts: ConjunctEnd,
    out: &mut String,
) -> Result<(), AllocError> {
    let name = solved.name;
    write!(out, "{name}: unknown: ")?;
    push_what(solved, why, conjuncts, out)?;
    if solved.alone.is_some() {
        push_why(solved, why, out)?;
        push_conjuncts(conjuncts, out)?;
    }
    if is_fault(why) {
        return Ok(());
    }
    push_help(solved, kind, next_of(solved, why, conjuncts), out)
}

/// Appends what wasn't found, and whether that was for want of time.
fn push_what(
    solved: Solved<'_>,
    why: Unsolved,
    conjuncts: ConjunctEnd,
    out: &mut String,
) -> Result<(), AllocError> {
    if is_timed(why, conjuncts) {
        out.push_str("the time was over")?;
        push_time(solved.solving, out)?;
        return out.push_str(" before a controller or a counter-strategy was found and tested\n");
    }
    out.push_str(match why {
        Unsolved::Withheld(Side::System, _) => "the system wins, and its circuit isn't printed\n",
        Unsolved::Withheld(Side::Environment, _) => {
            "the environment wins, and its circuit isn't printed\n"
        },
        Unsolved::Neither(..) => "neither a controller nor a counter-strategy was found\n",
    })
}

/// Whether the time of the text was over before something was found.
fn is_timed(why: Unsolved, conjuncts: ConjunctEnd) -> bool {
    let is_of_games = match why {
        Unsolved::Withheld(_, why) => why == Withheld::Time,
        Unsolved::Neither(system, environment) => is_late(system) || is_late(environment),
    };
    is_of_games
        || matches!(
            conjuncts,
            ConjunctEnd::Unplayed | ConjunctEnd::Time | ConjunctEnd::Withheld(_, Withheld::Time)
        )
}

fn is_late(unwon: Unwon) -> bool {
    unwon.why == NotWon::Time || unwon.refuted.end == RefutingEnd::Time
}

/// Whether a fault of the program keeps an answer from being printed.
fn is_fault(why: Unsolved) -> bool {
    matches!(
        why,
        Unsolved::Withheld(_, Withheld::Loses | Withheld::BadLine(_))
    )
}

/// Appends what became of the games of whole automata, and of the sizes.
fn push_why(solved: Solved<'_>, why: Unsolved, out: &mut String) -> Result<(), AllocError> {
    match why {
        Unsolved::Withheld(_, why) => {
            out.push_str("  ")?;
            push_withheld(why, out)
        },
        Unsolved::Neither(system, environment) => {
            push_not_won("system", system, solved, out)?;
            push_not_won("environment", environment, solved, out)
        },
    }
}

/// Appends why a side doesn't win, and how far its sizes were refuted.
fn push_not_won(
    side: &str,
    unwon: Unwon,
    solved: Solved<'_>,
    out: &mut String,
) -> Result<(), AllocError> {
    let why = match unwon.why {
        NotWon::AutomatonTooLarge => {
            "its automaton passes a limit: 20,000 states, 2,000,000 edges, or 100,000 branches of one state"
        },
        NotWon::Ended(End::Over) => {
            "it loses its games, or there is no room for more of their positions"
        },
        NotWon::Ended(End::Steps) => "the steps of the games are used up",
        NotWon::NoMemory => "memory ran out in the games",
        NotWon::Time => "the time was over in its games",
    };
    write!(out, "  {side}: {why}")?;
    if !solved.is_brief() && unwon.why != NotWon::AutomatonTooLarge {
        push_reached(unwon.refuted, solved.solving, out)?;
    }
    out.push('\n')
}

/// Appends which sizes of a side are refuted, and why no further one is.
fn push_reached(
    refuted: Refuted,
    solving: Option<Solving>,
    out: &mut String,
) -> Result<(), AllocError> {
    match refuted.sizes {
        0 if refuted.end == RefutingEnd::Done => return Ok(()),
        0 => {},
        1 => out.push_str("; size 1 refuted")?,
        2 => out.push_str("; sizes 1 and 2 refuted")?,
        last => write!(out, "; sizes 1 to {last} refuted")?,
    }
    out.push_str("; ")?;
    push_end(refuted, solving, out)
}

/// Appends what became of the game of conjuncts, where it was played.
fn push_conjuncts(conjuncts: ConjunctEnd, out: &mut String) -> Result<(), AllocError> {
    match conjuncts {
        ConjunctEnd::Unplayed => Ok(()),
        ConjunctEnd::NoShape => out.push_str(
            "  conjuncts: they have no game, since not each of them is of safety, co-safety or recurrence\n",
        ),
        ConjunctEnd::Passed(limit) => {
            let most = passed(limit);
            writeln!(out, "  conjuncts: their game passes a limit: {most}")
        },
        ConjunctEnd::Withheld(side, why) => {
            out.push_str(match side {
                Side::System => "  conjuncts: the system wins their game, and ",
                Side::Environment => "  conjuncts: the environment wins their game, and ",
            })?;
            push_withheld(why, out)
        },
        ConjunctEnd::NoMemory => out.push_str("  conjuncts: memory ran out in their game\n"),
        ConjunctEnd::Time => out.push_str("  conjuncts: the time was over in their game\n"),
    }
}

/// What of the game of conjuncts there is too much of.
fn passed(limit: ConjunctLimit) -> &'static str {
    match limit {
        ConjunctLimit::Steps => "1,000,000,000 steps",
        ConjunctLimit::Positions => "400,000 positions",
        ConjunctLimit::Edges => "20,000,000 edges",
        ConjunctLimit::Bytes => "1,000,000,000 bytes",
        ConjunctLimit::Monitor => {
            "100,000 states of one conjunct's monitor, or 2,000 alternatives or 128 obligations of one of these"
        },
        ConjunctLimit::Conjuncts => {
            "how many conjuncts there are, or forms of one, or those that ask for something again and again"
        },
        ConjunctLimit::Strategy => "200,000 states of a strategy",
    }
}

/// Appends why what a side wins with isn't printed.
fn push_withheld(why: Withheld, out: &mut String) -> Result<(), AllocError> {
    match why {
        Withheld::CircuitTooLarge => out.push_str(
            "it passes a limit: 1,000,000 moves of its machine, 100,000 variables, or the steps to make it\n",
        ),
        Withheld::TooManyStates => out.push_str(
            "it passes a limit: 65,536 states, or 2^26 for their number times that of the letters that are read\n",
        ),
        Withheld::AnnotationTooLarge(limit) => {
            let most = most_of(limit);
            writeln!(out, "its annotation passes a limit: {most}")
        },
        Withheld::Time => out.push_str("the time was over before it was tested\n"),
        Withheld::Loses => out.push_str("it loses on some input: this is a fault of boundsyn\n"),
        Withheld::BadLine(line) => writeln!(
            out,
            "line {line} of its document fails the test: this is a fault of boundsyn"
        ),
    }
}

fn most_of(limit: Limit) -> &'static str {
    match limit {
        Limit::Pairs => "1,000,000 pairs of latch values and states",
        Limit::States => "20,000 states",
        Limit::Steps => "2^26 for its pairs times the letters that are read",
        Limit::Leaves => "100,000 leaves of one state",
    }
}

/// The options that may help.
fn next_of(solved: Solved<'_>, why: Unsolved, conjuncts: ConjunctEnd) -> Next {
    let Some(solving) = solved.solving else {
        return Next::NOTHING;
    };
    if is_timed(why, conjuncts) {
        return longer(solving);
    }
    match why {
        Unsolved::Neither(system, environment) => {
            match (can_be_searched(system), can_be_searched(environment)) {
                (true, true) => further(&[system.refuted, environment.refuted], Some(solving)),
                (true, false) => further(&[system.refuted], Some(solving)),
                (false, true) => further(&[environment.refuted], Some(solving)),
                (false, false) => Next::NOTHING,
            }
        },
        Unsolved::Withheld(..) if solving.max != Some(MOST_REFUTED) => Next {
            max: Some(MOST_REFUTED),
            ..Next::NOTHING
        },
        Unsolved::Withheld(..) => Next::NOTHING,
    }
}

/// Whether a side has an automaton, without which none of its sizes is searched, whatever `--max` is.
fn can_be_searched(unwon: Unwon) -> bool {
    unwon.why != NotWon::AutomatonTooLarge
}

/// Appends commands that may go further, or that there are none. A Mealy machine may do where no Moore machine does, and not the other way round.
fn push_help(
    solved: Solved<'_>,
    kind: Kind,
    next: Next,
    out: &mut String,
) -> Result<(), AllocError> {
    push_next("try", solved.command, next, out)?;
    if kind == Kind::Moore {
        return push_next(
            "where a Mealy machine serves",
            solved.command,
            Next::MEALY,
            out,
        );
    }
    if next.is_nothing() {
        push_too_large(out)
    } else {
        Ok(())
    }
}
