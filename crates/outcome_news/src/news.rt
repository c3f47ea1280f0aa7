//! What is told, and who hears it.

use crate::guarantees::Guarantees;
use crate::searches::Searched;
use crate::solutions::{ConjunctEnd, Solution, Unsolved};
use letters_and_lassos::{Kind, Side};
use program_replies::Reply;

/// What is told while an answer is made.
#[derive(Clone, Copy, Debug, PartialEq, Eq)]
pub enum News {
    /// A text is known, and its games begin.
    Playing,
    /// The games give nothing to print, so small machines are searched.
    Searching,
    /// A strategy of this side is found, whose circuit reaches so many states, and its document passes the test. Smaller sizes are tried
    /// from now on.
    Found(Side, u32),
    /// The answer to a text is made, and this is told of it.
    Answered(Told),
}

/// Who hears news.
pub trait Listener {
    fn hear(&mut self, news: News);
}

/// Who hears nothing.
#[derive(Clone, Copy, Debug, PartialEq, Eq)]
pub struct NoListener;

impl Listener for NoListener {
    fn hear(&mut self, _news: News) {}
}

/// What is told of an answer beside its bytes.
#[derive(Clone, Copy, Debug, PartialEq, Eq)]
pub enum Told {
    /// The text has a fault.
    Refused,
    /// `solve` found a strategy whose document passes the test, with the logs of the sizes that are refuted.
    Found(Solution),
    /// `solve` prints no strategy, and its machines would be of this kind.
    Unsolved(Kind, Unsolved, ConjunctEnd),
    /// A document of `synth`, which `core` prints too where it has no counter-machine.
    Searched(Searched),
    /// Guarantees that can't be met together.
    Core(Guarantees),
}

/// A reply, and what is told of it.
#[derive(Drop)]
pub struct ToldReply {
    pub reply: Reply,
    pub told: Told,
}

/// Lets a listener hear what is told of each reply, in their order.
pub fn hear_all<L: Listener>(listener: &mut L, replies: &[ToldReply]) {
    for reply in replies {
        listener.hear(News::Answered(reply.told));
    }
}
