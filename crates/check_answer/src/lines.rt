//! The line of a document that is accepted.
ghost use Rattle.std.specs.Prelude.{◌≡◌, ◌++◌, decimal, IfOk, OnOk};
ghost use Rattle.check_answer.specs.Answer.{machine_words as words_of_machine, verdict_words};
ghost use Rattle.check_answer.specs.Reply.{IsAcceptance};

use document_text::Verdict;
use letters_and_lassos::{Kind, Side};
use names_and_numbers::push_number;
use program_replies::{Reply, Status};
use std::alloc::{AllocError, Global};

/// The reply to a document that holds, with this verdict and kind.
pub(crate) fn acceptance(alloc: Global, verdict: Verdict, kind: Kind) -> Result<Reply, AllocError>
    ensures { IfOk result (λ r. IsAcceptance verdict kind r.bytes.items r.status) }
{
    let mut bytes = Vec::new(alloc);
    bytes.extend_from_slice(b"accepted ")?;
    push_verdict(&mut bytes, verdict)?;
    bytes.extend_from_slice(b" as ")?;
    bytes.extend_from_slice(kind.word().as_bytes())?;
    bytes.extend_from_slice(b"\n")?;
    Ok(Reply {
        bytes,
        status: Status::Done,
    })
}

fn push_verdict(bytes: &mut Vec<u8>, verdict: Verdict) -> Result<(), AllocError>
    ensures { OnOk result (bytes.new.items ≡ bytes.old.items ++ verdict_words verdict) }
{
    match verdict {
        Verdict::Machine {
            side,
            states,
            least,
        } => push_numbered(bytes, machine_words(side, least), states),
        Verdict::Unknown(_) => bytes.extend_from_slice(b"unknown"),
    }
}

/// Appends words, with the space behind them, and a number.
fn push_numbered(bytes: &mut Vec<u8>, words: &[u8], number: u32) -> Result<(), AllocError>
    ensures { OnOk result (bytes.new.items ≡ bytes.old.items ++ (words.now ++ decimal number)) }
{
    bytes.extend_from_slice(words)?;
    push_number(bytes, u64::from(number))?;
    Ok(())
}

/// What is told of a machine begins so, which is the least or needn't be.
fn machine_words(side: Side, least: bool) -> &'static [u8]
    ensures { result.now ≡ words_of_machine side least }
{
    match (side, least) {
        (Side::System, true) => b"realizable ",
        (Side::System, false) => b"bounded system ",
        (Side::Environment, true) => b"unrealizable ",
        (Side::Environment, false) => b"bounded environment ",
    }
}
