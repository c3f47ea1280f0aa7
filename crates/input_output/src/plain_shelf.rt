ghost use Rattle.std.specs.Prelude.{◌≡◌, ◌≢◌, ℕ, ◌≤◌, ◌++◌, List, Some, IfOk, OnOk, OnErr, IsErrOf};
ghost use Rattle.input_output.specs.Faults.{Rose};
ghost use Rattle.input_output.specs.Files.{bytes_under, files_of, part_of as part_from, TakesPart};

use crate::in_memory::{find, part_of};
use crate::{FileBytes, Shelf, ShelfFault};
use names_and_numbers::Name;
use std::marker::Model;

/// Files in memory that never fail. A name that isn't there is a file with no bytes.
/// A contract sees the list of names and bytes.
#[derive(Debug, Drop)]
pub struct PlainShelf {
    files: Vec<(Name, FileBytes)>,
}

impl Model for PlainShelf {
    ghost use Rattle.std.specs.Prelude.{ℕ, List};

    ghost Value = { List (List ℕ × List ℕ) };

    ghost view = { λ shelf. shelf.files.items };
}

impl PlainShelf {
    /// Of files of one name the first counts.
    pub fn new(files: Vec<(Name, FileBytes)>) -> PlainShelf
        ensures files { result ≡ files.items }
    {
        PlainShelf { files }
    }
}

impl Shelf for PlainShelf {
    ghost files = { λ shelf. Some (files_of shelf) };

    ghost faults = { λ _ _. 0 };

    fn take(&mut self, name: &str, limit: u64, into: &mut Vec<u8>) -> Result<(), ShelfFault> {
        let bytes = find(&self.files, name).unwrap_or(&[]);
        if bytes.len() as u64 > limit {
            return Err(ShelfFault::TooLong);
        }
        into.extend_from_slice(bytes)?;
        Ok(())
    }

    fn part(
        &mut self,
        name: &str,
        from: u64,
        most: u64,
        into: &mut Vec<u8>,
    ) -> Result<u64, ShelfFault>
        requires { 1 ≤ most }
        ensures whole { OnOk result (into.new.items ≡ into.old.items ++ part_from (bytes_under (files_of self.old) name.now) from most) }
        ensures ok { IfOk result (TakesPart (Some (files_of self.old)) name.now from most into.old.items into.new.items) }
        ensures err { OnErr result (into.new.items ≡ into.old.items) }
        ensures files { Some (files_of self.new) ≡ Some (files_of self.old) }
        ensures too_long { ¬ IsErrOf result ShelfFault.TooLong }
        ensures failed { IsErrOf result ShelfFault.Failed → Rose 0 0 }
        ensures not_failed { ¬ IsErrOf result ShelfFault.Failed → ◌≡◌ {A = ℕ} 0 0 }
        ensures others { (other : List ℕ) → other ≢ name.now → ◌≡◌ {A = ℕ} 0 0 }
        ensures never_falls { (any : List ℕ) → 0 ≤ 0 }
    {
        let part = part_of(find(&self.files, name).unwrap_or(&[]), from, most);
        into.extend_from_slice(part)?;
        Ok(part.len() as u64)
    }
}
