//! One text of a batch, and the job of answering it.
ghost use Rattle.std.specs.Prelude.{◌≡◌, IfOk};
ghost use Rattle.program_replies.specs.Lines.{refusal_line};

use batch_run::Job;
use input_output::OpenGate;
use outcome_news::{Told, ToldReply};
use program_replies::{Status, refused};
use spec_faults::SpecCode;
use std::alloc::{AllocError, Global};
use std::marker::Model;
use std::sync::Wait;
use std::thread::Threads;
use synth_answer::answer;
use synth_engine::Settings;

/// The most bytes that a text may have.
const LONGEST_TEXT: u64 = 1_048_576;

/// What was taken of the file of a text.
#[derive(Drop)]
pub enum TakenText {
    /// All of its bytes.
    Whole(Vec<u8>),
    /// It has more bytes than a text may have, 1,048,576.
    TooLong,
}

/// The job of answering texts, each by one search without workers beside the caller. A contract sees how searches are bounded.
#[derive(Drop)]
pub struct Answering {
    alloc: Global,
    bounds: Settings,
}

impl Model for Answering {
    ghost use Rattle.synth_engine.specs.declared.settings.Settings.{Settings};

    ghost Value = { Settings };

    ghost view = { λ job. job.bounds };
}

impl Answering {
    ghost use Rattle.synth_engine.specs.Settings.{alone};

    /// With the limits of the settings.
    pub fn new(alloc: Global, settings: Settings) -> Answering
        ensures { result ≡ alone settings }
    {
        Answering {
            alloc,
            bounds: settings.alone(),
        }
    }
}

impl Job for Answering {
    ghost use Rattle.batch_answer.specs.Taken.{IsReplyTo};

    type Task = TakenText;

    type Answer = ToldReply;

    ghost is_answer = { IsReplyTo };

    fn answer<R: Threads + Wait + Sync>(
        &self,
        rt: &R,
        text: &TakenText,
    ) -> Result<ToldReply, AllocError> {
        match text {
            TakenText::Whole(bytes) => answer(rt, self.alloc, bytes, None, self.bounds, &OpenGate),
            TakenText::TooLong => too_long(self.alloc),
        }
    }
}

/// The reply to a text that is too long.
pub fn too_long(alloc: Global) -> Result<ToldReply, AllocError>
    ensures { IfOk result (λ r. (r.reply.bytes.items ≡ refusal_line SpecCode.TooLong 1048576) × (r.reply.status ≡ Status.Refused)) }
{
    Ok(ToldReply {
        reply: refused(alloc, SpecCode::TooLong, LONGEST_TEXT)?,
        told: Told::Refused,
    })
}
