//! A file of the system that stays open between its parts.
ghost use Rattle.std.specs.Prelude.{◌≡◌};
ghost use Rattle.input_output.specs.declared.open_part.ReadFault.TheVariants.{Failed, NoMemory};
ghost use Rattle.input_output.specs.Files.{Appends};

use names_and_numbers::Name;
use std::alloc::{AllocError, Global};
use std::fs;
use std::io::{Error, Read, Seek, SeekFrom};
use std::rt::Files;

/// Why a file wasn't read.
#[derive(Drop)]
pub enum ReadFault {
    Failed(Error),
    NoMemory,
}

impl From<Error> for ReadFault {
    ghost from_gives = { λ error fault. fault ≡ Failed error };

    fn from(error: Error) -> ReadFault {
        ReadFault::Failed(error)
    }
}

impl From<AllocError> for ReadFault {
    ghost from_gives = { λ _ fault. fault ≡ NoMemory };

    fn from(_error: AllocError) -> ReadFault {
        ReadFault::NoMemory
    }
}

/// An open file, with its name and the place that it stands at.
#[derive(Drop)]
pub struct OpenPart<F: Drop> {
    name: Name,
    file: F,
    at: u64,
}

/// Appends at most `most` bytes of a file from the place `from` on, and says how many; after a refusal some of them.
///
/// The part that is open is read on where it stands there. What is open after it is the file that gave some bytes.
pub(crate) fn read_part<R: Files>(
    rt: &R,
    alloc: Global,
    open: &mut Option<OpenPart<R::File>>,
    name: &str,
    from: u64,
    most: u64,
    into: &mut Vec<u8>,
) -> Result<u64, ReadFault>
    ensures gained { Appends most into.old.items into.new.items result }
{
    let mut part = match open.take() {
        Some(part) if part.at == from && part.name.bytes() == name.as_bytes() => part,
        _ => open_at(rt, alloc, name, from)?,
    };
    let count = append_next(&mut part.file, most, into)?;
    if count > 0 {
        part.at = from.saturating_add(count);
        *open = Some(part);
    }
    Ok(count)
}

/// Opens a file at a place. For its start nothing is sought, which a pipe would refuse.
fn open_at<R: Files>(
    rt: &R,
    alloc: Global,
    name: &str,
    from: u64,
) -> Result<OpenPart<R::File>, ReadFault> {
    let mut file = fs::open(rt, name)?;
    if from > 0 {
        file.seek(SeekFrom::Start(from))?;
    }
    Ok(OpenPart {
        name: Name::new(alloc, name.as_bytes())?,
        file,
        at: from,
    })
}

/// Appends what a file has next, at most `most` bytes, and after a refusal a part of it.
fn append_next<F: Read>(file: &mut F, most: u64, into: &mut Vec<u8>) -> Result<u64, ReadFault>
    ensures gained { Appends most into.old.items into.new.items result }
{
    let mut buffer = [0; 4096];
    let mut room = most;
    while room > 0 {
        let wanted = room.min(4096) as usize;
        let count = file.read(&mut buffer[..wanted])?;
        if count == 0 {
            break;
        }
        into.extend_from_slice(&buffer[..count])?;
        room -= count as u64;
    }
    Ok(most - room)
}
