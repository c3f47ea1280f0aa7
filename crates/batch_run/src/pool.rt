//! What the workers do.
ghost use Rattle.std.specs.Prelude.{◌≡◌, ◌^◌, ◌<◌, All, IfSome, length};
ghost use Rattle.batch_run.specs.Answers.{IsPlacedAnswer};

use crate::batch::Batch;
use crate::claims::{Claims, PlaceCount};
use crate::job::Job;
use crate::placed::Placed;
use input_output::{Gate, Moment};
use std::alloc::AllocError;
use std::sync::{Mutex, Wait};
use std::thread::Threads;

/// What all workers share.
#[derive_where(Clone, Copy)]
pub struct Pool<'a, 'b, J: Job, N: PlaceCount, R: Threads + Wait + Sync, G: Gate> {
    pub batch: &'b Batch<'a, J, R>,
    pub claims: &'b Mutex<Claims<N>>,
    pub gate: &'a G,
}

impl<J: Job, N: PlaceCount, R: Threads + Wait + Sync, G: Gate> Pool<'_, '_, J, N, R, G> {
    /// The work of one worker: it claims a place and answers the task there, until no place is left. Where memory is wanted it ends.
    pub fn work(&self, worker: u32) -> Vec<Placed<J::Answer>>
        requires places { length self.now.batch.now.tasks.now ≡ N.places }
        requires few { length self.now.batch.now.tasks.now < 2 ^ 32 }
        ensures { All (IsPlacedAnswer (J.is_answer self.now.batch.now.job.now) self.now.batch.now.tasks.now) result.items }
    {
        let mut answers = Vec::new(self.batch.alloc);
        for _ in self.batch.rt.forever() {
            let Some(place) = self.claim(worker) else {
                break;
            };
            if self.answer(worker, place, &mut answers).is_err() {
                break;
            }
        }
        answers
    }

    /// Claims the next place for a worker.
    fn claim(&self, worker: u32) -> Option<u32>
        requires places { length self.now.batch.now.tasks.now ≡ N.places }
        requires few { length self.now.batch.now.tasks.now < 2 ^ 32 }
        ensures { IfSome result (λ place. place < length self.now.batch.now.tasks.now) }
    {
        let claimed = self.claims.lock(self.batch.rt).claim();
        let places = self.batch.tasks.len() as u32;
        self.gate
            .pass(worker, claimed.unwrap_or(places), Moment::AfterRead);
        claimed
    }

    /// Answers the task at a place, and adds the answer to the worker's.
    fn answer(
        &self,
        worker: u32,
        place: u32,
        answers: &mut Vec<Placed<J::Answer>>,
    ) -> Result<(), AllocError>
        requires within { place < length self.now.batch.now.tasks.now }
        requires answers { All (IsPlacedAnswer (J.is_answer self.now.batch.now.job.now) self.now.batch.now.tasks.now) answers.old.items }
        ensures { All (IsPlacedAnswer (J.is_answer self.now.batch.now.job.now) self.now.batch.now.tasks.now) answers.new.items }
    {
        let placed = self.batch.answer(place)?;
        self.gate.pass(worker, place, Moment::BeforeAppend);
        answers.push(placed)?;
        self.gate.pass(worker, place, Moment::AfterAppend);
        Ok(())
    }
}
