//! Texts of the shape that are drawn, and played by this game and by that of whole automata.

use crate::plays::is_passed;
use game_machine::Contest;
use letters_and_lassos::Side;
use machine_model::Counts;
use rand_core::utils::NextWord;
use rand_pcg::Pcg32;
use reactivity_machine::{Budget, Question};
use solve_ground::{SolveText, solve_text};
use spec_problems::{TextProblems, text_problems};
use std::alloc::{AllocError, Global};
use std::thread::Threads;
use time_limits::NoDeadline;

const TEXTS: u32 = 120;

/// The steps of each game.
const STEPS: u64 = 500_000;

/// What came of the texts.
#[derive(Clone, Copy)]
struct Tally {
    /// Texts that both games decide.
    both: u32,
    /// Texts of them that are won by two sides.
    apart: u32,
    /// Circuits that are rejected.
    rejected: u32,
}

/// Draws texts, plays them, and adds a line on what comes of them.
pub(crate) fn push_agreement<R: Threads>(
    rt: &R,
    alloc: Global,
    out: &mut Vec<u8>,
) -> Result<(), AllocError> {
    let mut random = Pcg32::new(45, 54);
    let mut tally = Tally {
        both: 0,
        apart: 0,
        rejected: 0,
    };
    for _ in 0..TEXTS {
        let text = drawn_text(alloc, &mut random)?;
        tally.take(rt, alloc, &text)?;
    }
    let many = if tally.both > TEXTS / 2 {
        "most"
    } else {
        "few"
    };
    let (apart, rejected) = (tally.apart, tally.rejected);
    let line = format!(in alloc;
        "{many} texts that are drawn are decided by both games, {apart} by another side; {rejected} circuits are rejected\n"
    )?;
    out.extend_from_slice(line.as_bytes())
}

impl Tally {
    /// Plays a text.
    fn take<R: Threads>(&mut self, rt: &R, alloc: Global, text: &[u8]) -> Result<(), AllocError> {
        let known = solve_text(alloc, text, None);
        let problems = text_problems(alloc, text, None, Counts::Whole);
        let (Ok(known), Ok(problems)) = (known, problems) else {
            return Ok(());
        };
        let Some(side) = self.winner(alloc, &known, &problems)? else {
            return Ok(());
        };
        if let Some(other) = other_winner(rt, alloc, &problems)? {
            self.both = self.both.saturating_add(1);
            if other != side {
                self.apart = self.apart.saturating_add(1);
            }
        }
        Ok(())
    }

    /// Who wins the game of conjuncts.
    fn winner(
        &mut self,
        alloc: Global,
        known: &SolveText,
        problems: &TextProblems,
    ) -> Result<Option<Side>, AllocError> {
        let question = Question {
            formulas: &known.formulas,
            normal: known.normal,
            inputs: &known.inputs,
            outputs: &known.outputs,
            kind: known.kind,
        };
        let budget = Budget {
            steps: STEPS,
            positions: 100_000,
            edges: 1_000_000,
            bytes: 100_000_000,
        };
        let outcome = reactivity_machine::find(alloc, question, budget, &NoDeadline)?;
        let reactivity_machine::Outcome::Found(found) = outcome else {
            return Ok(None);
        };
        if !is_passed(alloc, problems, found.side, &found.circuit)? {
            self.rejected = self.rejected.saturating_add(1);
        }
        Ok(Some(found.side))
    }
}

/// Who wins the games of whole automata.
fn other_winner<R: Threads>(
    rt: &R,
    alloc: Global,
    text: &TextProblems,
) -> Result<Option<Side>, AllocError> {
    let contest = Contest {
        inputs: &text.spec.inputs,
        outputs: &text.spec.outputs,
        kind: text.spec.kind,
        system: Some(&text.problems.system.automaton),
        environment: match &text.problems.environment {
            Some(problem) => Some(&problem.automaton),
            None => None,
        },
    };
    let budget = game_machine::Budget {
        steps: STEPS,
        positions: 100_000,
        bytes: 100_000_000,
    };
    match game_machine::find(rt, alloc, contest, budget, 1, &NoDeadline)? {
        game_machine::Outcome::Found(found) => Ok(Some(found.side)),
        _ => Ok(None),
    }
}

/// Up to two assumptions and up to three guarantees over two inputs and two outputs.
fn drawn_text(alloc: Global, random: &mut Pcg32) -> Result<Vec<u8>, AllocError> {
    let mut text = Vec::new(alloc);
    text.extend_from_slice(b"INFO {\n  TITLE: \"Drawn\"\n  DESCRIPTION: \"Drawn\"\n")?;
    text.extend_from_slice(drawn_kind(random))?;
    text.extend_from_slice(b"}\nMAIN {\n  INPUTS { a; b; }\n  OUTPUTS { c; d; }\n  ASSUME {\n")?;
    for _ in 0..random.next_word() % 3 {
        push_conjunct(random, &mut text)?;
    }
    text.extend_from_slice(b"  }\n  GUARANTEE {\n")?;
    for _ in 0..=random.next_word() % 3 {
        push_conjunct(random, &mut text)?;
    }
    text.extend_from_slice(b"  }\n}\n")?;
    Ok(text)
}

fn drawn_kind(random: &mut Pcg32) -> &'static [u8] {
    match random.next_word() % 2 {
        0 => b"  SEMANTICS: Mealy\n  TARGET: Mealy\n",
        _ => b"  SEMANTICS: Moore\n  TARGET: Moore\n",
    }
}

/// A line with a conjunct whose digits are literals that are drawn.
fn push_conjunct(random: &mut Pcg32, text: &mut Vec<u8>) -> Result<(), AllocError> {
    let literals = [literal(random), literal(random), literal(random)];
    let conjunct = conjunct_of(random.next_word());
    text.extend_from_slice(b"    ")?;
    for byte in conjunct {
        match byte {
            b'0' => text.extend_from_slice(literals[0])?,
            b'1' => text.extend_from_slice(literals[1])?,
            b'2' => text.extend_from_slice(literals[2])?,
            _ => text.push(*byte)?,
        }
    }
    text.extend_from_slice(b";\n")
}

fn literal(random: &mut Pcg32) -> &'static [u8] {
    match random.next_word() % 8 {
        0 => b"a",
        1 => b"!a",
        2 => b"b",
        3 => b"!b",
        4 => b"c",
        5 => b"!c",
        6 => b"d",
        _ => b"!d",
    }
}

fn conjunct_of(number: u32) -> &'static [u8] {
    match number % 14 {
        0 | 1 => b"G F 0",
        2 | 3 => b"G (0 -> F 1)",
        4 => b"G (0 -> X 1)",
        5 => b"G !(0 && 1)",
        6 => b"0 W 1",
        7 => b"F 0",
        8 => b"G (0 -> 1 U 2)",
        9 => b"G (0 -> 1 W 2)",
        10 => b"0 U 1",
        11 => b"G (0 -> X X 1)",
        12 => b"G F (0 && X 1)",
        _ => b"G (0 || 1 || F 2)",
    }
}
