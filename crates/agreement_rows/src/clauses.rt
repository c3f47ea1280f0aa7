//! Whether the base clauses can be met with a machine that is fixed.
ghost use Rattle.std.specs.Prelude.{◌≡◌};
ghost use Rattle.propositional_logic.specs.Truth.{is_true_clause, is_true_literal};
ghost use Rattle.machine_model.specs.Problem.{IsMachineOf, IsProblem};

use crate::products::letter_count;
use annotation_encode::{encode, var_count, var_move, var_write};
use machine_model::{Machine, Problem};
use propositional_logic::{Clause, Lit};
use std::alloc::Global;

/// More rounds than numbers can rise in all.
const ROUNDS: u32 = 100;

fn set(values: &mut [bool], var: u32) {
    if let Some(value) = values.get_mut(var.saturating_sub(1) as usize) {
        *value = true;
    }
}

/// The machine's own variables.
fn set_machine(problem: &Problem, machine: &Machine, values: &mut [bool])
    requires problem { IsProblem problem.now }
    requires machine { IsMachineOf problem.now machine.now }
{
    let size = machine.size();
    for t in 0..size {
        for letter in 0..letter_count(machine) {
            set(
                values,
                var_move(problem, t, letter, machine.next(t, letter)),
            );
            if problem.writes() > 0 && machine.writes_at(t, letter) == 1 {
                set(values, var_write(problem, t, letter, 0));
            }
        }
    }
}

/// What the clauses want of numbers.
#[derive(Clone, Copy)]
enum Round {
    Nothing,
    More,
    Never,
}

/// Sets each number that a clause wants.
fn raised(values: &mut [bool], clauses: &[Clause], first: u32) -> Round {
    let mut round = Round::Nothing;
    for clause in clauses {
        if is_true_clause(values, clause) {
            continue;
        }
        match clause
            .lits()
            .iter()
            .find(|lit| lit.is_positive() && lit.var() >= first)
        {
            Some(lit) => set(values, lit.var()),
            None => return Round::Never,
        }
        round = Round::More;
    }
    round
}

/// Whether the base clauses can be met with this machine: each then wants at most one number more.
pub(crate) fn can_be_met(
    alloc: Global,
    problem: &Problem,
    machine: &Machine,
) -> anyhow::Result<bool>
    requires problem { IsProblem problem.now }
    requires machine { IsMachineOf problem.now machine.now }
{
    let cnf = encode(alloc, problem)?;
    let mut values = vec![in alloc; false; cnf.vars as usize]?;
    set_machine(problem, machine, &mut values);
    let _states = problem.automaton.states();
    let first = var_count(problem, 0, 0, 0);
    for _ in 0..ROUNDS {
        match raised(&mut values, &cnf.clauses, first) {
            Round::Nothing => return Ok(true),
            Round::Never => return Ok(false),
            Round::More => {}
        }
    }
    Ok(false)
}

fn is_true(values: &[bool], lit: Lit) -> bool
    ensures { result ≡ is_true_literal values.now lit }
{
    let place = lit.var().saturating_sub(1) as usize;
    let value = values.get(place).copied().unwrap_or(false);
    if lit.is_positive() { value } else { !value }
}

fn is_true_clause(values: &[bool], clause: &Clause) -> bool
    ensures { result ≡ is_true_clause values.now clause.now }
{
    clause.lits().iter().any(|lit| is_true(values, *lit))
}
