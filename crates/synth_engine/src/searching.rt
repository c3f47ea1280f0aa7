//! The search.
ghost use Rattle.std.specs.Prelude.{IfOk};
ghost use Rattle.std.specs.Option.{ForSome};
ghost use Rattle.letters_and_lassos.specs.declared.kinds.Side.TheVariants.{System, Environment};
ghost use Rattle.synth_engine.specs.Searched.{IsSearched};
ghost use Rattle.synth_engine.specs.Outcomes.{IsOutcomeOf};

use crate::concluding::conclude;
use crate::crews::seats_by_side;
use crate::outcomes::Outcome;
use crate::plans::Plan;
use crate::settings::Settings;
use crate::settling::Unsettled;
use crate::workers::run_workers;
use input_output::Gate;
use machine_model::Problem;
use std::alloc::{AllocError, Global};
use std::marker::Brand;
use std::sync::Wait;
use std::thread::Threads;

/// Searches the allowed sizes of both sides, until one side has a machine whose smaller sizes are all decided, or all sizes are. The
/// `size` of the problems isn't used; their base clauses are those that the settings name.
///
/// It waits for the workers, each of which passes the gate at three moments of its turns. The error is want of memory of the caller
/// itself; a worker that wants memory ends, and the others and the caller do its work.
pub fn search<R: Threads + Wait + Sync, G: Gate + Sync>(
    rt: &R,
    alloc: Global,
    system: Problem,
    environment: Option<Problem>,
    settings: Settings,
    gate: &G,
) -> Result<Outcome, AllocError>
    requires system { IsSearched settings.counts System system }
    requires environment { ForSome environment (IsSearched settings.counts Environment) }
    ensures { IfOk result (IsOutcomeOf system environment settings) }
{
    let plan = Plan::new(system, environment, settings);
    let field = plan.open(rt, alloc, settings)?;
    let (sizes, mut crews) = field.hand_out(alloc, settings)?;
    let Some(mut own) = crews.pop() else {
        unreachable!()
    };
    let (found, mut crews) = run_workers::<Brand, R, G>(
        rt, alloc, plan, &sizes, &mut own, crews, gate,
    )?;
    crews.push(own)?;
    let (of_system, of_environment) = seats_by_side(alloc, crews)?;
    let system = Unsettled {
        tasks: sizes.system,
        crews: of_system,
    };
    let environment = Unsettled {
        tasks: sizes.environment,
        crews: of_environment,
    };
    conclude(rt, alloc, found, system, environment)
}
