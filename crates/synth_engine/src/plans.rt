//! What is searched: the allowed sizes of both sides.
ghost use Rattle.std.specs.Prelude.{◌≡◌, ℕ, ◌+◌, ◌<◌, ◌≤◌, All, IfOk, Ok, map, slice_index_or, vec_len};
ghost use Rattle.std.specs.List.{AllZip};
ghost use Rattle.machine_model.specs.declared.problems.Problem.{Problem as ProblemView};
ghost use Rattle.std.specs.Option.{ForSome};
ghost use Rattle.text_limits.specs.declared.TheConstants.{SMALL_LIMITS};
ghost use Rattle.machine_model.specs.Problem.{IsProblem};
ghost use Rattle.synth_engine.specs.Hands.{AreRacks};
ghost use Rattle.synth_engine.specs.Plans.{AreProblemsDown, AreTasksUpTo, IsFieldOf, IsOpenedFor, IsPlanOf};

use crate::settings::Settings;
use crate::sizes::Sizes;
use annotation_encode::allowed_sizes;
use machine_model::Problem;
use size_search::{Opened, Seat, SizeTask};
use std::alloc::{AllocError, Global};
use std::thread::{self, Threads};

/// The problems of both sides, and how many sizes of each are allowed.
#[derive(Drop)]
pub struct Plan {
    pub system: Problem,
    pub environment: Option<Problem>,
    pub system_sizes: u32,
    pub environment_sizes: u32,
}

/// The tasks of a plan, and the seats at each of them, by rising numbers.
#[derive(Drop)]
pub struct Field {
    pub sizes: Sizes,
    pub system: Vec<Vec<Seat>>,
    pub environment: Vec<Vec<Seat>>,
}

/// The tasks of some sizes of a problem, from the largest one down, and the seats at each of them.
#[derive(Drop)]
struct OpenedSizes {
    tasks: Vec<SizeTask>,
    seats: Vec<Vec<Seat>>,
}

impl Plan {
    /// A plan of all sizes that are allowed under the settings.
    pub fn new(system: Problem, environment: Option<Problem>, settings: Settings) -> Plan
        requires system { IsProblem system }
        requires environment { ForSome environment IsProblem }
        ensures { IsPlanOf system environment settings.max result }
    {
        let max = settings.max();
        let system_sizes = allowed_sizes(&system, max);
        let environment_sizes = match &environment {
            Some(problem) => allowed_sizes(problem, max),
            None => 0,
        };
        Plan {
            system,
            environment,
            system_sizes,
            environment_sizes,
        }
    }

    /// Opens the sizes, each with a seat for the caller and each worker. Where there are workers, each size of a side is opened in a
    /// thread of its own if one can be made.
    pub fn open<R: Threads + Sync>(
        &self,
        rt: &R,
        alloc: Global,
        settings: Settings,
    ) -> Result<Field, AllocError>
        requires system { IsProblem self.now.system }
        requires environment { ForSome self.now.environment IsProblem }
        requires few { self.now.system_sizes ≤ SMALL_LIMITS.machine }
        requires few_of_environment { self.now.environment_sizes ≤ SMALL_LIMITS.machine }
        ensures { IfOk result (IsFieldOf self.now settings) }
    {
        let system = open_sizes(rt, alloc, &self.system, self.system_sizes, settings)?;
        let environment = match &self.environment {
            Some(problem) => open_sizes(rt, alloc, problem, self.environment_sizes, settings)?,
            None => OpenedSizes {
                tasks: Vec::new(alloc),
                seats: Vec::new(alloc),
            },
        };
        Ok(Field {
            sizes: Sizes {
                system: system.tasks,
                environment: environment.tasks,
            },
            system: system.seats,
            environment: environment.seats,
        })
    }
}

/// Opens the sizes of a problem from 1 up to a number.
fn open_sizes<R: Threads + Sync>(
    rt: &R,
    alloc: Global,
    problem: &Problem,
    count: u32,
    settings: Settings,
) -> Result<OpenedSizes, AllocError>
    requires problem { IsProblem problem.now }
    requires count { count ≤ SMALL_LIMITS.machine }
    ensures tasks { IfOk result (λ o. AreTasksUpTo problem.now settings count o.tasks.items) }
    ensures seats { IfOk result (λ o. AreRacks (settings.workers + 1) o.tasks.items o.seats.items) }
{
    let problems = problems_down(alloc, problem, count)?;
    let opened = open_all(rt, alloc, problems, settings)?;
    by_parts(alloc, opened)
}

/// The tasks and the seats of what was opened.
fn by_parts(alloc: Global, opened: Vec<Opened>) -> Result<OpenedSizes, AllocError>
    ensures tasks { IfOk result (λ o. o.tasks.items ≡ map (λ x. x.task) opened.items) }
    ensures seats { IfOk result (λ o. o.seats.items ≡ map (λ x. x.seats) opened.items) }
{
    let mut tasks = Vec::with_capacity(alloc, opened.len())?;
    let mut seats = Vec::with_capacity(alloc, opened.len())?;
    for size in opened {
        tasks.push(size.task)?;
        seats.push(size.seats)?;
    }
    Ok(OpenedSizes { tasks, seats })
}

/// The problem with each size from this number down to 1.
fn problems_down(alloc: Global, problem: &Problem, count: u32) -> Result<Vec<Problem>, AllocError>
    requires problem { IsProblem problem.now }
    requires count { count ≤ SMALL_LIMITS.machine }
    ensures { IfOk result (λ sized. AreProblemsDown problem.now count sized.items) }
{
    let mut problems = Vec::with_capacity(alloc, count as usize)?;
    for fewer in (0..count).rev() {
        problems.push(problem.sized(fewer + 1)?)?;
    }
    Ok(problems)
}

/// Opens these problems, at once where there are workers.
fn open_all<R: Threads + Sync>(
    rt: &R,
    alloc: Global,
    problems: Vec<Problem>,
    settings: Settings,
) -> Result<Vec<Opened>, AllocError>
    requires problems { All IsProblem problems.items }
    ensures { IfOk result (λ opened. AllZip (IsOpenedFor settings) problems.items opened.items) }
{
    if settings.workers() == 0 {
        return open_in_turn(alloc, problems, settings);
    }
    let results = open_at_once(rt, alloc, problems, settings)?;
    all_opened(alloc, results)
}

/// Opens these problems, one after the other.
fn open_in_turn(
    alloc: Global,
    problems: Vec<Problem>,
    settings: Settings,
) -> Result<Vec<Opened>, AllocError>
    requires problems { All IsProblem problems.items }
    ensures { IfOk result (λ opened. AllZip (IsOpenedFor settings) problems.items opened.items) }
{
    let mut all = Vec::with_capacity(alloc, problems.len())?;
    for problem in problems {
        all.push(open_size(alloc, problem, settings)?)?;
    }
    Ok(all)
}

/// Opens these problems, each in a thread of its own where one can be made.
fn open_at_once<R: Threads + Sync>(
    rt: &R,
    alloc: Global,
    problems: Vec<Problem>,
    settings: Settings,
) -> Result<Vec<Result<Opened, AllocError>>, AllocError>
    requires problems { All IsProblem problems.items }
    ensures count { IfOk result (λ opened. vec_len opened ≡ vec_len problems) }
    ensures each { IfOk result (λ opened. (i : ℕ) (d : _) (p : ProblemView) → i < vec_len problems → IfOk (slice_index_or opened.items i d) (IsOpenedFor settings (slice_index_or problems.items i p))) }
{
    thread::map_vec(
        rt,
        problems,
        &|problem: Problem| -> Result<Opened, AllocError>
            requires { IsProblem problem }
            ensures { IfOk result (IsOpenedFor settings problem) }
        { open_size(alloc, problem, settings) },
    )
}

/// What was opened, if all was.
fn all_opened(
    alloc: Global,
    results: Vec<Result<Opened, AllocError>>,
) -> Result<Vec<Opened>, AllocError>
    ensures { IfOk result (λ all. results.items ≡ map (λ o. Ok o) all.items) }
{
    let mut all = Vec::with_capacity(alloc, results.len())?;
    for opened in results {
        all.push(opened?)?;
    }
    Ok(all)
}

/// Opens a problem of one size.
fn open_size(alloc: Global, problem: Problem, settings: Settings) -> Result<Opened, AllocError>
    requires problem { IsProblem problem }
    ensures { IfOk result (IsOpenedFor settings problem) }
{
    SizeTask::open(alloc, problem, settings.entries(), settings.workers() + 1)
}
