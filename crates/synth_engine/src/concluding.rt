//! The outcome that settled sizes give.
ghost use Rattle.std.specs.Prelude.{◌≡◌, ◌<◌, ◌≤◌, Option, IfOk, length};
ghost use Rattle.std.specs.Option.{ForSome};
ghost use Rattle.letters_and_lassos.specs.declared.kinds.Side.TheVariants.{System, Environment};
ghost use Rattle.machine_model.specs.Machine.{size_of};
ghost use Rattle.machine_model.specs.declared.problems.Problem.{Problem as ProblemView};
ghost use Rattle.synth_engine.specs.declared.settings.Settings.{Settings as SettingsView};
ghost use Rattle.synth_engine.specs.Outcomes.{IsFound, IsOutcomeOf, OfSide};
ghost use Rattle.synth_engine.specs.Settled.{HasItsSeats};
ghost use Rattle.synth_engine.specs.Concluded.{AreLeft, IsLeft, IsWinnerOf};

use crate::outcomes::{Found, Outcome};
use crate::settling::{Settled, Unsettled};
use letters_and_lassos::Side;
use std::alloc::{AllocError, Global};
use std::sync::Wait;

/// Settles what the answer needs: the sizes below that of a machine that was found, or all of them.
pub(crate) fn conclude<R: Wait>(
    rt: &R,
    alloc: Global,
    found: Option<Found>,
    system: Unsettled,
    environment: Unsettled,
) -> Result<Outcome, AllocError>
    requires system { HasItsSeats system }
    requires environment { HasItsSeats environment }
    requires found { ForSome found (λ w. (0 < size_of w.machine) × (w.side ≡ System → size_of w.machine ≤ length system.tasks.items) × (w.side ≡ Environment → size_of w.machine ≤ length environment.tasks.items)) }
    ensures { (s : ProblemView) (e : Option ProblemView) (settings : SettingsView) → AreLeft s e settings system environment → IsWinnerOf s e settings found → IfOk result (IsOutcomeOf s e settings) }
{
    let Some(found) = found else {
        return settle_all(rt, alloc, system, environment);
    };
    match found.side {
        Side::System => settle_smaller(rt, alloc, found, system),
        Side::Environment => settle_smaller(rt, alloc, found, environment),
    }
}

/// Settles the sizes below that of a machine of their side.
fn settle_smaller<R: Wait>(
    rt: &R,
    alloc: Global,
    found: Found,
    unsettled: Unsettled,
) -> Result<Outcome, AllocError>
    requires seats { HasItsSeats unsettled }
    requires some { 0 < size_of found.machine }
    requires most { size_of found.machine ≤ length unsettled.tasks.items }
    ensures { (s : ProblemView) (e : Option ProblemView) (settings : SettingsView) → OfSide s e (λ p. IsLeft found.side settings unsettled p × IsFound p settings found.machine) found.side → IfOk result (IsOutcomeOf s e settings) }
{
    let Found { side, machine } = found;
    let smaller = machine.size() as usize - 1;
    let Settled {
        machine: smaller,
        logs,
    } = unsettled.settle(rt, alloc, smaller)?;
    let machine = smaller.unwrap_or(machine);
    Ok(Outcome {
        found: Some(Found { side, machine }),
        logs,
    })
}

/// Settles all sizes, those of the system first, unless there is a machine.
fn settle_all<R: Wait>(
    rt: &R,
    alloc: Global,
    system: Unsettled,
    environment: Unsettled,
) -> Result<Outcome, AllocError>
    requires system { HasItsSeats system }
    requires environment { HasItsSeats environment }
    ensures { (s : ProblemView) (e : Option ProblemView) (settings : SettingsView) → AreLeft s e settings system environment → IfOk result (IsOutcomeOf s e settings) }
{
    let all = system.tasks.len();
    let Settled { machine, mut logs } = system.settle(rt, alloc, all)?;
    if let Some(machine) = machine {
        let side = Side::System;
        return Ok(Outcome {
            found: Some(Found { side, machine }),
            logs,
        });
    }
    let all = environment.tasks.len();
    let of_environment = environment.settle(rt, alloc, all)?;
    let Settled {
        machine,
        logs: mut more,
    } = of_environment;
    if let Some(machine) = machine {
        let side = Side::Environment;
        return Ok(Outcome {
            found: Some(Found { side, machine }),
            logs: more,
        });
    }
    logs.append(&mut more)?;
    Ok(Outcome { found: None, logs })
}
