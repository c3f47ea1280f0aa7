//! What the caller does when the workers have ended: it settles the sizes that the answer needs, and closes their logs.
ghost use Rattle.std.specs.Prelude.{◌≡◌, ℕ, ◌-◌, ◌<◌, ◌≤◌, [], ◌∷◌, ◌++◌, IfOk, length};
ghost use Rattle.machine_model.specs.declared.problems.Problem.{Problem as ProblemView};
ghost use Rattle.size_search.specs.Task.{SizeTaskModel};
ghost use Rattle.synth_engine.specs.declared.settings.Settings.{Settings as SettingsView};
ghost use Rattle.synth_engine.specs.Tasks.{AreTasks};
ghost use Rattle.synth_engine.specs.Hands.{AreAtFrom};
ghost use Rattle.synth_engine.specs.Settled.{AreFirstSettled, HasItsSeats, IsAnswerOf};

use crate::hands::draw;
use machine_model::Machine;
use size_search::{Decided, Seat, SizeLog, SizeTask};
use std::alloc::{AllocError, Global};
use std::sync::Wait;

/// The sizes of a side that are still to be settled, from the largest one down, and each worker's seats there: those of the worker with
/// the greatest number first, and the caller's last.
#[derive(Drop)]
pub struct Unsettled {
    pub tasks: Vec<SizeTask>,
    pub crews: Vec<Vec<Seat>>,
}

/// How a size was settled.
#[derive(Drop)]
enum Answer {
    /// By a machine of this size.
    Machine(Machine),
    /// By its log, which is closed or full.
    Log(SizeLog),
}

/// Settled sizes from 1 on: their logs, and a machine of the size after them, if one was found there.
#[derive(Drop)]
pub struct Settled {
    pub machine: Option<Machine>,
    pub logs: Vec<SizeLog>,
}

impl Unsettled {
    /// Settles the first so many sizes, up to the first one at which there is a machine.
    pub fn settle<R: Wait>(self, rt: &R, alloc: Global, count: usize) -> Result<Settled, AllocError>
        requires seats { HasItsSeats self }
        requires count { count ≤ length self.tasks.items }
        ensures { (p : ProblemView) (settings : SettingsView) → AreTasks p settings (length self.tasks.items) self.tasks.items → IfOk result (AreFirstSettled p settings count) }
    {
        let mut left = self;
        let mut logs = Vec::new(alloc);
        for _ in 0..count {
            let (answer, rest) = left.settle_next(rt, alloc)?;
            left = rest;
            match answer {
                Answer::Log(log) => logs.push(log)?,
                Answer::Machine(machine) => {
                    return Ok(Settled {
                        machine: Some(machine),
                        logs,
                    });
                }
            }
        }
        Ok(Settled {
            machine: None,
            logs,
        })
    }

    /// Settles the smallest size that is left.
    fn settle_next<R: Wait>(self, rt: &R, alloc: Global) -> Result<(Answer, Unsettled), AllocError>
        requires some { 0 < length self.tasks.items }
        requires seats { HasItsSeats self }
        ensures seats { IfOk result (λ r. HasItsSeats r.1) }
        ensures task { IfOk result (λ r. (t : SizeTaskModel) × (self.tasks.items ≡ r.1.tasks.items ++ t ∷ []) × IsAnswerOf t r.0) }
    {
        let Unsettled { mut tasks, crews } = self;
        let Some(task) = tasks.pop() else {
            unreachable!()
        };
        let (seats, crews) = draw(alloc, crews)?;
        let answer = settle_task(rt, alloc, task, seats)?;
        Ok((answer, Unsettled { tasks, crews }))
    }
}

/// Settles a size by turns of the caller, whose seat is the last one, and closes its log.
fn settle_task<R: Wait>(
    rt: &R,
    alloc: Global,
    task: SizeTask,
    mut seats: Vec<Seat>,
) -> Result<Answer, AllocError>
    requires some { 0 < length seats.items }
    requires all { task.exchange.terms.seats ≡ length seats.items }
    requires seats { AreAtFrom (length seats.items - 1) task.exchange seats.items }
    ensures { IfOk result (IsAnswerOf task) }
{
    let Some(mut own) = seats.pop() else {
        unreachable!()
    };
    let decided = task.finish(rt, alloc, &mut own)?;
    seats.push(own)?;
    match decided {
        Decided::Found(machine) => Ok(Answer::Machine(machine)),
        Decided::Refuted => Ok(Answer::Log(task.close(alloc, seats)?)),
        Decided::Full => Ok(Answer::Log(task.close(alloc, seats)?)),
    }
}
