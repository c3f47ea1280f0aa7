ghost use Rattle.std.specs.Prelude.{◌≡◌, ◌≢◌, ℕ, ◌<◌, ◌≤◌, List, length, Some, IfOk, IfSome, OnOk, OnErr, IsErrOf, ◌++◌};
ghost use Rattle.input_output.specs.Faults.{Rose, count_of};
ghost use Rattle.input_output.specs.Files.{bytes_under, files_of, part_of as part_from, Takes, TakesPart};

use crate::in_memory::{find, part_of};
use crate::{FileBytes, Shelf, ShelfFault};
use names_and_numbers::Name;
use std::alloc::{AllocError, Global};
use std::marker::Model;

/// Files in memory, of which taking, whole or in parts, fails at stated calls, and at a name that isn't there.
#[derive(Debug, Drop)]
pub struct MemoryShelf {
    alloc: Global,
    files: Vec<(Name, FileBytes)>,
    failing: Vec<u64>,
    calls: u64,
    failed: Vec<Name>,
}

impl Model for MemoryShelf {
    ghost use Rattle.input_output.specs.Memory.{ShelfState};

    ghost Value = { ShelfState };

    ghost view = { λ shelf. record { files = shelf.files.items; failing = shelf.failing.items; calls = shelf.calls; failed = shelf.failed.items } };
}

impl MemoryShelf {
    ghost use Rattle.std.specs.Prelude.{[], ◌∷◌, None, if◌then◌else◌};
    ghost use Rattle.std.specs.Option.{option_copied};
    ghost use Rattle.input_output.specs.Memory.{one_more, take_fails};

    /// The calls whose numbers, from 1, are in `failing` fail. Of files of one name the first counts.
    pub fn new(alloc: Global, files: Vec<(Name, FileBytes)>, failing: Vec<u64>) -> MemoryShelf
        ensures start { result ≡ record { files = files.items; failing = failing.items; calls = 0; failed = [] } }
    {
        MemoryShelf {
            alloc,
            files,
            failing,
            calls: 0,
            failed: Vec::new(alloc),
        }
    }

    /// The bytes of the file that the next call takes, or none if it fails.
    fn found(&self, name: &str) -> Option<&[u8]>
        ensures found { option_copied result ≡ (if take_fails self.now name.now then None else files_of self.now.files name.now) }
    {
        if self.failing.contains(&self.calls.saturating_add(1)) {
            return None;
        }
        find(&self.files, name)
    }

    fn count_call(&mut self)
        ensures counted { self.new ≡ record self.old { calls = one_more self.old.calls } }
    {
        self.calls = self.calls.saturating_add(1);
    }

    fn count_failure(&mut self, name: &str) -> Result<(), AllocError>
        ensures counted { OnOk result (self.new ≡ record self.old { calls = one_more self.old.calls; failed = self.old.failed ++ name.now ∷ [] }) }
        ensures err { OnErr result (self.new ≡ self.old) }
    {
        self.failed.push(Name::new(self.alloc, name.as_bytes())?)?;
        self.count_call();
        Ok(())
    }
}

impl Shelf for MemoryShelf {
    ghost use Rattle.input_output.specs.Memory.{AnswersTake, AnswersPart};

    ghost files = { λ shelf. Some (files_of shelf.files) };

    ghost faults = { λ shelf name. count_of shelf.failed name };

    fn take(&mut self, name: &str, limit: u64, into: &mut Vec<u8>) -> Result<(), ShelfFault>
        ensures exact { AnswersTake self.old name.now result self.new }
        ensures ok { OnOk result (Takes (Some (files_of self.old.files)) name.now limit into.old.items into.new.items) }
        ensures err { OnErr result (into.new.items ≡ into.old.items) }
        ensures files { Some (files_of self.new.files) ≡ Some (files_of self.old.files) }
        ensures too_long { IsErrOf result ShelfFault.TooLong
            → IfSome (Some (files_of self.old.files)) (λ files. limit < length (bytes_under files name.now)) }
        ensures no_limit { limit ≡ u64.MAX → ¬ IsErrOf result ShelfFault.TooLong }
        ensures failed { IsErrOf result ShelfFault.Failed
            → Rose (count_of self.old.failed name.now) (count_of self.new.failed name.now) }
        ensures not_failed { ¬ IsErrOf result ShelfFault.Failed
            → count_of self.new.failed name.now ≡ count_of self.old.failed name.now }
        ensures others { (other : List ℕ) → other ≢ name.now → count_of self.new.failed other ≡ count_of self.old.failed other }
        ensures never_falls { (any : List ℕ) → count_of self.old.failed any ≤ count_of self.new.failed any }
    {
        let Some(bytes) = self.found(name) else {
            self.count_failure(name)?;
            return Err(ShelfFault::Failed);
        };
        if bytes.len() as u64 > limit {
            self.count_call();
            return Err(ShelfFault::TooLong);
        }
        into.extend_from_slice(bytes)?;
        self.count_call();
        Ok(())
    }

    fn part(
        &mut self,
        name: &str,
        from: u64,
        most: u64,
        into: &mut Vec<u8>,
    ) -> Result<u64, ShelfFault>
        requires { 1 ≤ most }
        ensures exact { AnswersPart self.old name.now result self.new }
        ensures whole { OnOk result (into.new.items ≡ into.old.items ++ part_from (bytes_under (files_of self.old.files) name.now) from most) }
        ensures ok { IfOk result (TakesPart (Some (files_of self.old.files)) name.now from most into.old.items into.new.items) }
        ensures err { OnErr result (into.new.items ≡ into.old.items) }
        ensures files { Some (files_of self.new.files) ≡ Some (files_of self.old.files) }
        ensures too_long { ¬ IsErrOf result ShelfFault.TooLong }
        ensures failed { IsErrOf result ShelfFault.Failed
            → Rose (count_of self.old.failed name.now) (count_of self.new.failed name.now) }
        ensures not_failed { ¬ IsErrOf result ShelfFault.Failed
            → count_of self.new.failed name.now ≡ count_of self.old.failed name.now }
        ensures others { (other : List ℕ) → other ≢ name.now → count_of self.new.failed other ≡ count_of self.old.failed other }
        ensures never_falls { (any : List ℕ) → count_of self.old.failed any ≤ count_of self.new.failed any }
    {
        let Some(bytes) = self.found(name) else {
            self.count_failure(name)?;
            return Err(ShelfFault::Failed);
        };
        let part = part_of(bytes, from, most);
        let count = part.len() as u64;
        into.extend_from_slice(part)?;
        self.count_call();
        Ok(count)
    }
}
