//! What is done with each task.
ghost use Rattle.std.specs.Prelude.{IfOk};
ghost use Rattle.std.specs.Thread.{IsSync};

use std::alloc::AllocError;
use std::sync::Wait;
use std::thread::Threads;

/// What is done with each of many tasks. Threads share the job and the tasks, and hand answers over.
pub trait Job {
    type Task: Sync;

    type Answer: Send + Drop;

    /// What the job has to do with a task and an answer to it.
    ghost is_answer: { Self → Self.Task → Self.Answer → Type 0 };

    /// Answers a task. It may wait; the error is want of memory.
    fn answer<R: Threads + Wait + Sync>(
        &self,
        rt: &R,
        task: &Self::Task,
    ) -> Result<Self::Answer, AllocError>
        requires { IsSync R.row }
        ensures { IfOk result (is_answer self.now task.now) };
}
