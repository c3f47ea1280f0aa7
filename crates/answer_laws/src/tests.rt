//! What `check` answers to what `synth` printed: its status is proved, by the law, and its line is seen.
ghost use Rattle.std.specs.Prelude.{◌≡◌, ◌≢◌, false, IfOk, IfSome};
ghost use Rattle.program_replies.specs.Statuses.{status_number};
ghost use Rattle.check_answer.specs.Answer.{CheckAnswers};

use crate::laws::printed_is_accepted;
use check_answer::{TextForCheck, check_answer, text_for_check};
use input_output::OpenGate;
use letters_and_lassos::Kind;
use machine_model::Counts;
use program_replies::{Reply, Status};
use std::alloc::{AllocError, Global};
use std::sync::Wait;
use std::test::Fail;
use std::thread::Threads;
use synth_answer::answer;
use synth_engine::Settings;

/// The output follows the input at once.
const WIRE: &[u8] =
    b"INFO { TITLE: \"wire\" DESCRIPTION: \"wire\" SEMANTICS: Mealy TARGET: Mealy }\n\
    MAIN { INPUTS { r; } OUTPUTS { g; } GUARANTEES { G (g <-> r); } }\n";

fn is_refusal(status: Status) -> bool
    ensures { result ≡ false → status_number status ≢ 1 }
{
    match status {
        Status::Refused => true,
        _ => false,
    }
}

/// What `check` answers to a text and a certificate.
fn checked<R: Threads + Sync>(
    rt: &R,
    alloc: Global,
    text: &[u8],
    certificate: &[u8],
) -> Result<Reply, AllocError>
    ensures { IfOk result (λ r. CheckAnswers text.now certificate.now r.bytes.items (status_number r.status)) }
{
    match text_for_check(alloc, text)? {
        TextForCheck::Taken => check_answer(rt, alloc, text, certificate),
        TextForCheck::Refused(reply) => Ok(reply),
    }
}

/// What `check` answers to what `synth` prints for a text, unless that is a refusal.
fn checked_answer<R: Threads + Wait + Sync>(
    rt: &R,
    alloc: Global,
    text: &[u8],
    kind: Option<Kind>,
    settings: Settings,
) -> Result<Option<Reply>, AllocError>
    ensures { IfOk result (λ reply. IfSome reply (λ r. status_number r.status ≡ 0)) }
{
    printed_is_accepted();
    let printed = answer(rt, alloc, text, kind, settings, &OpenGate)?;
    if is_refusal(printed.reply.status) {
        return Ok(None);
    }
    Ok(Some(checked(rt, alloc, text, &printed.reply.bytes)?))
}

/// The line of that answer.
fn line_of<R: Threads + Wait + Sync>(
    rt: &R,
    alloc: Global,
    kind: Option<Kind>,
    counts: Counts,
) -> Result<Vec<u8>, AllocError> {
    let settings = Settings::new(4, None, 0, counts);
    match checked_answer(rt, alloc, WIRE, kind, settings)? {
        Some(reply) => Ok(reply.bytes),
        None => Ok(Vec::new(alloc)),
    }
}

#[test]
fn what_is_printed_is_accepted(rt: HostRuntime) -> Result<(), Fail> {
    let own = line_of(&rt, rt.alloc(), None, Counts::Whole)?;
    assert_eq!(rt;
        own.as_slice(),
        b"accepted realizable 1 as Mealy\n".as_slice()
    );
    let given = line_of(&rt, rt.alloc(), Some(Kind::Moore), Counts::Local)?;
    assert_eq!(rt;
        given.as_slice(),
        b"accepted unrealizable 1 as Moore\n".as_slice()
    );
    Ok(())
}
