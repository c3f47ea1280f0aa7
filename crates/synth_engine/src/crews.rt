//! What one worker has.
ghost use Rattle.std.specs.Prelude.{◌≡◌, ℕ, ◌+◌, ◌-◌, ◌<◌, ◌≤◌, All, IfOk, IfSome, length, map};
ghost use Rattle.size_search.specs.declared.seats.Seat.{Seat as SeatView};
ghost use Rattle.synth_engine.specs.declared.crews.Crew.{Crew as CrewView};
ghost use Rattle.synth_engine.specs.Tasks.{IsVerdictAt};
ghost use Rattle.synth_engine.specs.Hands.{AreRacks};
ghost use Rattle.synth_engine.specs.Plans.{AreWorkersOf};

use crate::hands::draw;
use crate::plans::Field;
use crate::settings::Settings;
use crate::sizes::Sizes;
use input_output::Gate;
use size_search::{Decided, Seat, SizeTask};
use std::alloc::{AllocError, Global};
use std::sync::Wait;

/// A worker's number, 0 for the caller, and its seats at the sizes of both sides, of each side from the largest size down.
#[derive(Drop)]
pub struct Crew {
    pub number: u32,
    pub system: Vec<Seat>,
    pub environment: Vec<Seat>,
}

impl Field {
    /// Gives each worker its seats. The worker with the greatest number comes first, and the caller last.
    pub(crate) fn hand_out(
        self,
        alloc: Global,
        settings: Settings,
    ) -> Result<(Sizes, Vec<Crew>), AllocError>
        requires system { AreRacks (settings.workers + 1) self.sizes.system.items self.system.items }
        requires environment { AreRacks (settings.workers + 1) self.sizes.environment.items self.environment.items }
        ensures sizes { IfOk result (λ r. r.0 ≡ self.sizes) }
        ensures count { IfOk result (λ r. length r.1.items ≡ settings.workers + 1) }
        ensures crews { IfOk result (λ r. AreWorkersOf self.sizes settings.workers r.1.items) }
    {
        let Field {
            sizes,
            mut system,
            mut environment,
        } = self;
        let mut crews = Vec::new(alloc);
        for number in (0..settings.workers() + 1).rev() {
            let (of_system, rest_of_system) = draw(alloc, system)?;
            let (of_environment, rest_of_environment) = draw(alloc, environment)?;
            system = rest_of_system;
            environment = rest_of_environment;
            crews.push(Crew {
                number,
                system: of_system,
                environment: of_environment,
            })?;
        }
        Ok((sizes, crews))
    }
}

/// The seats of all workers at the system's sizes, and at the environment's.
pub(crate) fn seats_by_side(
    alloc: Global,
    crews: Vec<Crew>,
) -> Result<(Vec<Vec<Seat>>, Vec<Vec<Seat>>), AllocError>
    ensures system { IfOk result (λ r. r.0.items ≡ map (λ c. c.system) crews.items) }
    ensures environment { IfOk result (λ r. r.1.items ≡ map (λ c. c.environment) crews.items) }
{
    let mut system = Vec::new(alloc);
    let mut environment = Vec::new(alloc);
    for crew in crews {
        system.push(crew.system)?;
        environment.push(crew.environment)?;
    }
    Ok((system, environment))
}

/// One turn on the task of a size, by the seat at that task. The tasks stand from the largest size down.
pub(crate) fn turn_on<R: Wait, G: Gate>(
    rt: &R,
    alloc: Global,
    tasks: &[SizeTask],
    seats: &mut [Seat],
    size: u32,
    gate: &G,
) -> Result<Option<Decided>, AllocError>
    requires some { 0 < size }
    requires most { size ≤ length tasks.now }
    requires exchanges { map (λ s. s.exchange) seats.old ≡ map (λ t. t.exchange) tasks.now }
    ensures exchanges { map (λ s. s.exchange) seats.new ≡ map (λ t. t.exchange) tasks.now }
    ensures numbers { (number : ℕ) → All (λ s. s.number ≡ number) seats.old → All (λ s. s.number ≡ number) seats.new }
    ensures verdict { IfOk result (λ answer. IfSome answer (IsVerdictAt tasks.now (length tasks.now - size))) }
{
    let place = tasks.len() - size as usize;
    tasks[place].turn(rt, alloc, &mut seats[place], gate)
}
