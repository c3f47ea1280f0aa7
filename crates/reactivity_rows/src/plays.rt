//! A text that is played, and what comes of it.

use crate::headings::{Heading, Slip};
use aiger_text::Circuit;
use letters_and_lassos::Side;
use machine_model::{Counts, Problem};
use product_test::passes;
use reactivity_machine::{Budget, Limit, Outcome, Question, Why, find};
use solve_ground::{SolveText, solve_text};
use spec_problems::{TextProblems, text_problems};
use std::alloc::{AllocError, Global};
use time_limits::NoDeadline;

/// A heading, and what comes of its text.
pub(crate) fn push_row(
    alloc: Global,
    out: &mut Vec<u8>,
    heading: &[u8],
    text: &[u8],
) -> Result<(), AllocError> {
    out.extend_from_slice(heading)?;
    match solve_text(alloc, text, None) {
        Ok(known) => push_play(alloc, out, Heading::of(heading), text, &known),
        Err(fault) => {
            let line = format!(in alloc; "{fault}\n")?;
            out.extend_from_slice(line.as_bytes())
        }
    }
}

fn push_play(
    alloc: Global,
    out: &mut Vec<u8>,
    heading: Heading,
    text: &[u8],
    known: &SolveText,
) -> Result<(), AllocError> {
    match find(
        alloc,
        question(heading, known),
        budget(heading),
        &NoDeadline,
    )? {
        Outcome::Found(found) => push_found(alloc, out, text, found.side, &found.circuit),
        Outcome::NoWin(why) => out.extend_from_slice(words_of(why)),
        Outcome::NoCircuit(_) => out.extend_from_slice(b"no circuit\n"),
    }
}

/// What the game is told.
fn question(heading: Heading, known: &SolveText) -> Question<'_> {
    Question {
        formulas: &known.formulas,
        normal: match heading.slip {
            Slip::Opposite => known.negated,
            _ => known.normal,
        },
        inputs: &known.inputs,
        outputs: &known.outputs,
        kind: match heading.slip {
            Slip::Kind => known.kind.other(),
            _ => known.kind,
        },
    }
}

/// What the game may use.
fn budget(heading: Heading) -> Budget {
    Budget {
        steps: heading.steps,
        positions: match heading.slip {
            Slip::Positions => 2,
            _ => 400_000,
        },
        edges: match heading.slip {
            Slip::Edges => 2,
            _ => 20_000_000,
        },
        bytes: match heading.slip {
            Slip::Bytes => 300,
            _ => 1_000_000_000,
        },
    }
}

fn words_of(why: Why) -> &'static [u8] {
    match why {
        Why::NoShape => b"no such shape\n",
        Why::Passed(Limit::Obligations, _) => b"too many obligations\n",
        Why::Passed(Limit::Alternatives, _) => b"too many alternatives\n",
        Why::Passed(Limit::MonitorStates, _) => b"too many states of a monitor\n",
        Why::Passed(Limit::Steps, _) => b"too many steps\n",
        Why::Passed(Limit::Positions, _) => b"too many positions\n",
        Why::Passed(Limit::Edges, _) => b"too many edges\n",
        Why::Passed(Limit::Bytes, _) => b"too many bytes\n",
        Why::Passed(Limit::Conjuncts, _) => b"too many conjuncts\n",
        Why::Passed(Limit::StrategyStates, _) => b"too many states of a strategy\n",
        Why::Time => b"the time is over\n",
    }
}

/// Who wins, and whether the circuit passes the test, which isn't told the slip.
fn push_found(
    alloc: Global,
    out: &mut Vec<u8>,
    text: &[u8],
    side: Side,
    circuit: &Circuit,
) -> Result<(), AllocError> {
    let winner = match side {
        Side::System => "system",
        Side::Environment => "environment",
    };
    let Ok(problems) = text_problems(alloc, text, None, Counts::Whole) else {
        return out.extend_from_slice(b"no automaton\n");
    };
    let verdict = if is_passed(alloc, &problems, side, circuit)? {
        "passes"
    } else {
        "is rejected"
    };
    let line = format!(in alloc; "{winner} {verdict}\n")?;
    out.extend_from_slice(line.as_bytes())
}

/// Whether a circuit of a side passes the test.
pub(crate) fn is_passed(
    alloc: Global,
    problems: &TextProblems,
    side: Side,
    circuit: &Circuit,
) -> Result<bool, AllocError> {
    match problem_of(problems, side) {
        Some(problem) => passes(alloc, problem, circuit),
        None => Ok(false),
    }
}

fn problem_of(text: &TextProblems, side: Side) -> Option<&Problem> {
    match side {
        Side::System => Some(&text.problems.system),
        Side::Environment => text.problems.environment.as_ref(),
    }
}
