//! Machines of at most two states over automata of at most four, all of them drawn: a machine is accepted exactly where it has a valid
//! annotation, and where the base clauses can be met with it, both where all rejecting states are counted and where those of a
//! component are. No contract says that the last two hold of each machine that is accepted. And formulas that are drawn with lassos: each lasso
//! is accepted by a formula's automaton over plain covers exactly where it is by that over reduced ones.
#![tactic(auto)]

ghost use Rattle.std.specs.Prelude.{◌≤◌};
ghost use Rattle.machine_model.specs.Problem.{IsProblem};

mod checked;
mod clauses;
mod covers;
mod drawn;
mod formulas;
mod products;

use anyhow::Context;
use checked::{checked, fitting};
use clauses::can_be_met;
use covers::Agreement;
use drawn::{random_machine, random_problem};
use machine_model::{Machine, Problem};
use products::{is_accepted, is_annotated};
use rand_pcg::Pcg32;
use std::alloc::Global;
use std::io;

/// How many machines are drawn.
const MACHINES: u32 = 400;

/// How many formulas are drawn.
const FORMULAS: u32 = 300;

/// What each of the three ways says of a machine.
fn verdicts(alloc: Global, problem: &Problem, machine: Machine) -> anyhow::Result<[bool; 3]>
    requires { IsProblem problem.now }
{
    let machine = fitting(problem, machine).context("no machine of the problem")?;
    Ok([
        is_accepted(alloc, problem, &machine)?,
        is_annotated(alloc, problem, &machine)?,
        can_be_met(alloc, problem, &machine)?,
    ])
}

/// How many machines each of the three ways accepts, and of how many all three say the same.
#[derive(Clone, Copy)]
struct Found {
    accepted: u32,
    annotated: u32,
    met: u32,
    same: u32,
}

impl Found {
    const NONE: Found = Found {
        accepted: 0,
        annotated: 0,
        met: 0,
        same: 0,
    };

    fn add(&mut self, said: [bool; 3]) {
        let [accepted, annotated, met] = said;
        let is_same = accepted == annotated && annotated == met;
        self.accepted = self.accepted.saturating_add(u32::from(accepted));
        self.annotated = self.annotated.saturating_add(u32::from(annotated));
        self.met = self.met.saturating_add(u32::from(met));
        self.same = self.same.saturating_add(u32::from(is_same));
    }

    fn tell(&self, rt: &impl Print, counted: &str) -> io::Result<()> {
        let word = if self.same == MACHINES {
            "agree"
        } else {
            "differ"
        };
        println!(rt;
            "{counted}: of {MACHINES} machines {} are accepted, {} have an annotation, and of {} the clauses can be met: {word}",
            self.accepted, self.annotated, self.met
        )
    }
}

/// Draws a machine with its problem, and adds what is said of it, where all rejecting states are counted and by component.
fn draw(
    alloc: Global,
    random: &mut Pcg32,
    size: u32,
    whole: &mut Found,
    local: &mut Found,
) -> anyhow::Result<()>
    requires { size ≤ 2 }
{
    let problem = random_problem(alloc, random, size)?;
    let machine = random_machine(alloc, random, problem.kind, size)?;
    let problem = checked(problem).context("no problem within the limits")?;
    whole.add(verdicts(alloc, &problem, machine.clone()?)?);
    let problem = problem.by_component(alloc)?;
    local.add(verdicts(alloc, &problem, machine)?);
    Ok(())
}

fn main(rt: HostRuntime) -> anyhow::Result<()> {
    let mut random = Pcg32::new(42, 54);
    let mut whole = Found::NONE;
    let mut local = Found::NONE;
    for case in 0..MACHINES {
        draw(
            rt.alloc(),
            &mut random,
            1 + case % 2,
            &mut whole,
            &mut local,
        )?;
    }
    whole.tell(&rt, "all rejecting states counted")?;
    local.tell(&rt, "counted by component")?;
    let mut random = Pcg32::new(43, 54);
    let mut formulas = Agreement::NONE;
    for _ in 0..FORMULAS {
        formulas.draw(rt.alloc(), &mut random)?;
    }
    formulas.tell(&rt)?;
    Ok(())
}
