//! Many tasks, answered by one pool of workers.
//!
//! The contract above this layer: `run_all` gives as many answers as there are tasks, in their order, and each has the job's relation to
//! its task, whatever the schedule of the workers. It stands on `thread::map_vec` and on the gate of input_output, and knows nothing of
//! what a task or an answer is.
#![tactic(auto)]

mod batch;
mod claims;
mod job;
mod placed;
mod pool;
mod running;

pub use claims::{Claims, PlaceCount};
pub use job::Job;
pub use running::run_all;
