//! What is told of the answer to a text beside its bytes, so that a message can say it. Nothing is promised of it.
//!
//! synth_answer, core_answer and solve_answer fill it in, a listener hears it, and diagnostics puts it into words. It stands below them all, so
//! that messages don't stand on what finds machines.
#![tactic(auto)]

mod guarantees;
mod news;
mod remarks;
mod searches;
mod solutions;

pub use guarantees::Guarantees;
pub use news::{Listener, News, NoListener, Told, ToldReply, hear_all};
pub use remarks::{Owed, Remarks};
pub use searches::{LogEnd, LogEnds, Searched, SideLogs};
pub use solutions::{
    ConjunctEnd, ConjunctLimit, End, Engine, Limit, NotWon, Refuted, RefutingEnd, Solution,
    Unsolved, Unwon, Withheld,
};
