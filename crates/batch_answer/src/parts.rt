//! What is written for texts that were answered.
ghost use Rattle.std.specs.Prelude.{◌≡◌, ◌++◌, IfOk, OnOk, length, map};
ghost use Rattle.batch_answer.specs.Batch.{batch_text as whole_text, part_of, part_text};

use crate::file_name::FileName;
use names_and_numbers::push_number;
use outcome_news::ToldReply;
use program_replies::line_count;
use std::alloc::{AllocError, Global};

/// A part for each reply, under the name of its text, and the last line.
pub fn batch_text(
    alloc: Global,
    names: &[FileName],
    replies: &[ToldReply],
) -> Result<Vec<u8>, AllocError>
    requires one_each { length names.now ≡ length replies.now }
    ensures { IfOk result (λ bytes. bytes.items ≡ whole_text names.now (map part_of replies.now)) }
{
    let mut bytes = Vec::new(alloc);
    for (name, reply) in names.iter().zip(replies) {
        push_part(&mut bytes, name, reply)?;
    }
    bytes.extend_from_slice(b"end batch\n")?;
    Ok(bytes)
}

/// `text NAME`, `status S` and `lines L`, and the L lines of the reply.
fn push_part(bytes: &mut Vec<u8>, name: &FileName, told: &ToldReply) -> Result<(), AllocError>
    ensures { OnOk result (bytes.new.items ≡ bytes.old.items ++ part_text name.now (part_of told.now)) }
{
    let reply = &told.reply;
    bytes.extend_from_slice(b"text ")?;
    bytes.extend_from_slice(name.as_str().as_bytes())?;
    bytes.extend_from_slice(b"\nstatus ")?;
    push_number(bytes, u64::from(reply.status.number()))?;
    bytes.extend_from_slice(b"\nlines ")?;
    push_number(bytes, line_count(&reply.bytes) as u64)?;
    bytes.extend_from_slice(b"\n")?;
    bytes.extend_from_slice(&reply.bytes)
}
