//! A row of tasks, and how the answers of the workers are put in order.
ghost use Rattle.std.specs.Prelude.{◌≡◌, ◌^◌, ◌<◌, ℕ, All, IfOk, None, Some, length, replicate, slice_get, slice_set};
ghost use Rattle.batch_run.specs.Answers.{AreAnswers, AreKept, IsPlacedAnswer};

use crate::job::Job;
use crate::placed::Placed;
use std::alloc::{AllocError, Global};
use std::sync::Wait;
use std::thread::Threads;

/// A job and the tasks to do.
#[derive_where(Clone, Copy)]
pub struct Batch<'a, J: Job, R: Threads + Wait + Sync> {
    pub rt: &'a R,
    pub alloc: Global,
    pub job: &'a J,
    pub tasks: &'a [J::Task],
}

impl<J: Job, R: Threads + Wait + Sync> Batch<'_, J, R> {
    /// Answers the task at a place.
    pub fn answer(&self, place: u32) -> Result<Placed<J::Answer>, AllocError>
        requires { place < length self.now.tasks.now }
        ensures { IfOk result (IsPlacedAnswer (J.is_answer self.now.job.now) self.now.tasks.now) }
    {
        let answer = self.job.answer(self.rt, &self.tasks[place as usize])?;
        Ok(Placed { place, answer })
    }

    /// The answers at the places of their tasks, and none where there is no answer. Of two answers for one place it keeps the first.
    pub fn in_order(
        &self,
        lists: Vec<Vec<Placed<J::Answer>>>,
    ) -> Result<Vec<Option<J::Answer>>, AllocError>
        requires { All (λ list. All (IsPlacedAnswer (J.is_answer self.now.job.now) self.now.tasks.now) list.items) lists.items }
        ensures { IfOk result (λ slots. AreKept (J.is_answer self.now.job.now) self.now.tasks.now slots.items) }
    {
        let mut slots = no_answers(self.alloc, self.tasks.len())?;
        for list in lists {
            self.keep_all(&mut slots, list);
        }
        Ok(slots)
    }

    /// Puts the answers of one list at their places, where there are none yet.
    fn keep_all(&self, slots: &mut [Option<J::Answer>], list: Vec<Placed<J::Answer>>)
        requires slots { AreKept (J.is_answer self.now.job.now) self.now.tasks.now slots.old }
        requires list { All (IsPlacedAnswer (J.is_answer self.now.job.now) self.now.tasks.now) list.items }
        ensures { AreKept (J.is_answer self.now.job.now) self.now.tasks.now slots.new }
    {
        for placed in list {
            keep_first(slots, placed);
        }
    }

    /// All answers, in the order of the tasks. It answers the tasks that have none.
    pub fn finish(&self, slots: Vec<Option<J::Answer>>) -> Result<Vec<J::Answer>, AllocError>
        requires few { length self.now.tasks.now < 2 ^ 32 }
        requires slots { AreKept (J.is_answer self.now.job.now) self.now.tasks.now slots.items }
        ensures { IfOk result (λ answers. AreAnswers (J.is_answer self.now.job.now) self.now.tasks.now answers.items) }
    {
        let mut answers = Vec::with_capacity(self.alloc, slots.len())?;
        for slot in slots {
            let answer = self.answer_at(answers.len(), slot)?;
            answers.push(answer)?;
        }
        Ok(answers)
    }

    /// The answer that was kept for a place, or else one of the caller's own.
    fn answer_at(&self, place: usize, kept: Option<J::Answer>) -> Result<J::Answer, AllocError>
        requires { place < length self.now.tasks.now }
        ensures kept { (answer : J.Answer) → kept ≡ Some answer → result ≡ Ok answer }
        ensures own { (task : J.Task) → kept ≡ None → slice_get self.now.tasks.now place ≡ Some task → IfOk result (J.is_answer self.now.job.now task) }
    {
        match kept {
            Some(answer) => Ok(answer),
            None => self.job.answer(self.rt, &self.tasks[place]),
        }
    }
}

/// Places with no answer yet.
fn no_answers<A: Drop>(alloc: Global, count: usize) -> Result<Vec<Option<A>>, AllocError>
    ensures { IfOk result (λ slots. slots.items ≡ replicate count None) }
{
    let mut slots = Vec::with_capacity(alloc, count)?;
    for _ in 0..count {
        slots.push(None)?;
    }
    Ok(slots)
}

/// Puts an answer at its place, where there is none yet.
fn keep_first<A: Drop>(slots: &mut [Option<A>], placed: Placed<A>)
    requires { placed.place < length slots.old }
    ensures kept { (answer : A) → slice_get slots.old placed.place ≡ Some (Some answer) → slots.new ≡ slots.old }
    ensures new { slice_get slots.old placed.place ≡ Some None → slots.new ≡ slice_set slots.old placed.place (Some placed.answer) }
{
    let place = placed.place as usize;
    if slots[place].is_none() {
        slots[place] = Some(placed.answer);
    }
}
