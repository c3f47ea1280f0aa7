//! All tasks, answered by all workers.
ghost use Rattle.std.specs.Prelude.{◌≡◌, ◌^◌, ◌<◌, ◌≤◌, All, IfOk, length};
ghost use Rattle.batch_run.specs.Answers.{AreAnswers, IsPlacedAnswer};
ghost use Rattle.batch_run.specs.Claims.{places_from};

use crate::batch::Batch;
use crate::claims::{Claims, PlaceCount};
use crate::job::Job;
use crate::placed::Placed;
use crate::pool::Pool;
use input_output::Gate;
use std::alloc::{AllocError, Global};
use std::marker::Brand;
use std::sync::{Mutex, Wait};
use std::thread::{self, Threads};

/// Answers all tasks by so many workers, each in a thread of its own where one can be made, and gives the answers in the order of the
/// tasks. A worker that wants memory ends, and the caller answers what is left.
///
/// It waits for the workers. They count from 1 and pass the gate with the place of a task as the log: before and after each answer that
/// they keep, and after each claim, with the number of tasks as the log where no place was left. The error is want of memory of the
/// caller itself.
pub fn run_all<J: Job + Sync, R: Threads + Wait + Sync, G: Gate + Sync>(
    rt: &R,
    alloc: Global,
    job: &J,
    tasks: &[J::Task],
    workers: u32,
    gate: &G,
) -> Result<Vec<J::Answer>, AllocError>
    requires workers { 1 ≤ workers }
    requires few { length tasks.now < 2 ^ 32 }
    ensures { IfOk result (λ answers. AreAnswers (J.is_answer job.now) tasks.now answers.items) }
{
    let batch = Batch {
        rt,
        alloc,
        job,
        tasks,
    };
    let lists = run_workers::<Brand, J, R, G>(&batch, workers, gate)?;
    let slots = batch.in_order(lists)?;
    batch.finish(slots)
}

/// Lets the workers answer what they can. Gives each one's answers with their places.
fn run_workers<
    'a,
    N: PlaceCount + Send + Sync,
    J: Job + Sync,
    R: Threads + Wait + Sync,
    G: Gate + Sync,
>(
    batch: &Batch<'a, J, R>,
    workers: u32,
    gate: &'a G,
) -> Result<Vec<Vec<Placed<J::Answer>>>, AllocError>
    requires places { length batch.now.tasks.now ≡ N.places }
    requires few { length batch.now.tasks.now < 2 ^ 32 }
    ensures { IfOk result (λ lists. All (λ list. All (IsPlacedAnswer (J.is_answer batch.now.job.now) batch.now.tasks.now) list.items) lists.items) }
{
    let claims = Mutex::new(Claims::<N>::new(batch.tasks.len() as u32));
    let pool = Pool {
        batch,
        claims: &claims,
        gate,
    };
    let numbers = numbers_up_to(batch.alloc, workers)?;
    thread::map_vec(
        batch.rt,
        numbers,
        &|number: u32| -> Vec<Placed<J::Answer>>
            requires { (length pool.batch.now.tasks.now ≡ N.places) × (length pool.batch.now.tasks.now < 2 ^ 32) }
            ensures { All (IsPlacedAnswer (J.is_answer pool.entry.batch.now.job.now) pool.entry.batch.now.tasks.now) result.items }
        { pool.work(number) },
    )
}

/// The workers' numbers, from 1 on.
fn numbers_up_to(alloc: Global, workers: u32) -> Result<Vec<u32>, AllocError>
    ensures { IfOk result (λ numbers. numbers.items ≡ places_from 1 workers) }
{
    let mut numbers = Vec::new(alloc);
    for number in 0..workers {
        numbers.push(number + 1)?;
    }
    Ok(numbers)
}
