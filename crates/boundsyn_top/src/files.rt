//! Files that a command takes.
ghost use Rattle.std.specs.Prelude.{◌≡◌, ◌≢◌, ◌≤◌, ℕ, List, codes, IfOk, IfSome, MatchOption};
ghost use Rattle.input_output.specs.Faults.{Rose};
ghost use Rattle.program_replies.specs.Lines.{refusal_line};
ghost use Rattle.boundsyn_top.specs.Files.{AreOfFile, IsTakenText, IsTakenUnchanged};
ghost use Rattle.boundsyn_top.specs.Steps.{IsUnchanged, step_of};

use input_output::{Shelf, ShelfFault};
use program_replies::{Reply, Status, refused, whole};
use spec_faults::SpecCode;
use std::alloc::{AllocError, Global};

/// The most bytes that a text may have.
pub const LONGEST_TEXT: u64 = 1_048_576;

/// The most bytes of a part of a file.
const PART: u64 = 65_536;

/// What came of taking a text.
#[derive(Drop)]
pub enum Taken {
    /// All of its bytes.
    Whole(Vec<u8>),
    /// The reply where it is too long or can't be read.
    Refused(Reply),
}

/// Takes a text.
pub(crate) fn take_text<H: Shelf>(
    alloc: Global,
    shelf: &mut H,
    name: &str,
) -> Result<Taken, AllocError>
    ensures taken { IfOk result (IsTakenText (step_of H.files H.faults shelf.old shelf.new) name.now) }
    ensures unchanged { IfOk result (IsTakenUnchanged (step_of H.files H.faults shelf.old shelf.new)) }
    ensures files { H.files shelf.new ≡ H.files shelf.old }
    ensures others { (other : List ℕ) → other ≢ name.now → H.faults shelf.new other ≡ H.faults shelf.old other }
    ensures never_falls { (any : List ℕ) → H.faults shelf.old any ≤ H.faults shelf.new any }
{
    let mut bytes = Vec::new(alloc);
    match shelf.take(name, LONGEST_TEXT, &mut bytes) {
        Ok(()) => Ok(Taken::Whole(bytes)),
        Err(ShelfFault::TooLong) => Ok(Taken::Refused(too_long(alloc)?)),
        Err(ShelfFault::Failed) => Ok(Taken::Refused(cannot_read(alloc)?)),
        Err(ShelfFault::NoMemory) => Err(AllocError),
    }
}

/// Takes a file of any length at once. None where it can't be read.
pub(crate) fn take_whole<H: Shelf>(
    alloc: Global,
    shelf: &mut H,
    name: &str,
) -> Result<Option<Vec<u8>>, AllocError>
    ensures taken { IfOk result (λ taken. MatchOption taken (Rose (H.faults shelf.old name.now) (H.faults shelf.new name.now))
        (λ bytes. AreOfFile (H.files shelf.old) name.now bytes.items)) }
    ensures unchanged { IfOk result (λ taken. IfSome taken (λ _. IsUnchanged (step_of H.files H.faults shelf.old shelf.new))) }
    ensures files { H.files shelf.new ≡ H.files shelf.old }
    ensures others { (other : List ℕ) → other ≢ name.now → H.faults shelf.new other ≡ H.faults shelf.old other }
    ensures never_falls { (any : List ℕ) → H.faults shelf.old any ≤ H.faults shelf.new any }
{
    let mut bytes = Vec::new(alloc);
    match shelf.take(name, u64::MAX, &mut bytes) {
        Ok(()) => Ok(Some(bytes)),
        Err(ShelfFault::TooLong) => unreachable!(),
        Err(ShelfFault::Failed) => Ok(None),
        Err(ShelfFault::NoMemory) => Err(AllocError),
    }
}

/// Takes a file of any length by parts, until a part gives none. None where it can't be read.
pub(crate) fn take_parts<H: Shelf>(
    alloc: Global,
    shelf: &mut H,
    name: &str,
) -> Result<Option<Vec<u8>>, AllocError>
    ensures taken { IfOk result (λ taken. MatchOption taken (Rose (H.faults shelf.old name.now) (H.faults shelf.new name.now))
        (λ bytes. AreOfFile (H.files shelf.old) name.now bytes.items)) }
    ensures unchanged { IfOk result (λ taken. IfSome taken (λ _. IsUnchanged (step_of H.files H.faults shelf.old shelf.new))) }
    ensures files { H.files shelf.new ≡ H.files shelf.old }
    ensures others { (other : List ℕ) → other ≢ name.now → H.faults shelf.new other ≡ H.faults shelf.old other }
{
    let mut bytes = Vec::new(alloc);
    loop {
        let from = bytes.len() as u64;
        match shelf.part(name, from, PART, &mut bytes) {
            Ok(0) => return Ok(Some(bytes)),
            Ok(_) => {},
            Err(ShelfFault::TooLong) => unreachable!(),
            Err(ShelfFault::Failed) => return Ok(None),
            Err(ShelfFault::NoMemory) => return Err(AllocError),
        }
    }
}

/// The reply where a file can't be read.
pub(crate) fn cannot_read(alloc: Global) -> Result<Reply, AllocError>
    ensures { IfOk result (λ r. (r.bytes.items ≡ codes "cannot read\n") × (r.status ≡ Status.CannotRead)) }
{
    whole(alloc, b"cannot read\n", Status::CannotRead)
}

/// The reply to a text that is too long.
fn too_long(alloc: Global) -> Result<Reply, AllocError>
    ensures { IfOk result (λ r. (r.bytes.items ≡ refusal_line SpecCode.TooLong 1048576) × (r.status ≡ Status.Refused)) }
{
    refused(alloc, SpecCode::TooLong, LONGEST_TEXT)
}
