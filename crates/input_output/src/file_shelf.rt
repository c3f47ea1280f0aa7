ghost use Rattle.std.specs.Prelude.{◌≡◌, None};
ghost use Rattle.input_output.specs.Faults.{count_of};

use crate::open_part::{OpenPart, ReadFault, read_part};
use crate::{Shelf, ShelfFault};
use names_and_numbers::Name;
use std::alloc::Global;
use std::io::Error;
use std::marker::Model;
use std::rt::Files;

/// Files of the system. What they hold isn't told. A contract sees the names of the calls that failed.
///
/// The file of the last part stays open, and the next part reads on without seeking where it goes on from there: so
/// pipes are read, and a file that is replaced meanwhile isn't mixed with the new one. A part from another place, or
/// after a part that gave no bytes, opens its file anew.
#[derive(Drop)]
pub struct FileShelf<'a, R: Files> {
    rt: &'a R,
    alloc: Global,
    failed: Vec<Name>,
    last_error: Option<Error>,
    part: Option<OpenPart<R::File>>,
}

impl<'a, R: Files> Model for FileShelf<'a, R> {
    ghost use Rattle.std.specs.Prelude.{ℕ, List};

    ghost Value = { List (List ℕ) };

    ghost view = { λ shelf. shelf.failed.items };
}

impl<'a, R: Files> FileShelf<'a, R> {
    ghost use Rattle.std.specs.Prelude.{[]};

    pub fn new(rt: &'a R, alloc: Global) -> FileShelf<'a, R>
        ensures start { result ≡ [] }
    {
        FileShelf {
            rt,
            alloc,
            failed: Vec::new(alloc),
            last_error: None,
            part: None,
        }
    }

    fn close(&mut self)
        ensures same { self.new ≡ self.old }
    {
        self.part = None;
    }

    /// Why the last call that failed did so, as the system says it.
    pub fn last_error(&self) -> Option<Error> {
        self.last_error
    }
}

impl<'a, R: Files> Shelf for FileShelf<'a, R> {
    ghost files = { λ _. None };

    ghost faults = { λ shelf name. count_of shelf name };

    /// The whole is a part from the start, with one byte more than the limit where there is one.
    fn take(&mut self, name: &str, limit: u64, into: &mut Vec<u8>) -> Result<(), ShelfFault> {
        let before = into.len();
        let count = self.part(name, 0, limit.saturating_add(1), into)?;
        self.close();
        if count > limit {
            into.truncate(before);
            return Err(ShelfFault::TooLong);
        }
        Ok(())
    }

    fn part(
        &mut self,
        name: &str,
        from: u64,
        most: u64,
        into: &mut Vec<u8>,
    ) -> Result<u64, ShelfFault> {
        // A failed call is remembered whatever happens, so the room for its name is made first.
        let remembered = Name::new(self.alloc, name.as_bytes())?;
        self.failed.reserve(1)?;
        let start = into.len();
        let fault = match read_part(self.rt, self.alloc, &mut self.part, name, from, most, into) {
            Ok(count) => return Ok(count),
            Err(fault) => fault,
        };
        into.truncate(start);
        match fault {
            ReadFault::Failed(error) => {
                self.failed.push_reserved(remembered);
                self.last_error = Some(error);
                Err(ShelfFault::Failed)
            }
            ReadFault::NoMemory => Err(ShelfFault::NoMemory),
        }
    }
}
