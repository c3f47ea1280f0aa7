ghost use Rattle.std.specs.Prelude.{◌≡◌, ◌≢◌, ℕ, ◌<◌, ◌≤◌, List, length, Option, IfOk, IfSome, OnOk, OnErr, IsErrOf};
ghost use Rattle.input_output.specs.declared.shelf.ShelfFault.TheVariants.{NoMemory};
ghost use Rattle.input_output.specs.Faults.{Rose};
ghost use Rattle.input_output.specs.Files.{Files, bytes_under, Takes, TakesPart};

use std::alloc::{AllocError, AllocFailed};

/// Why a file was not taken.
#[derive(Clone, Copy, Debug, PartialEq, Eq)]
pub enum ShelfFault {
    /// The shelf failed.
    Failed,
    /// The file has more bytes than the limit allows.
    TooLong,
    NoMemory,
}

impl From<AllocError> for ShelfFault {
    ghost from_gives = { λ _ fault. fault ≡ NoMemory };

    fn from(_error: AllocError) -> ShelfFault {
        ShelfFault::NoMemory
    }
}

impl<T: Drop> From<AllocFailed<T>> for ShelfFault {
    ghost from_gives = { λ _ fault. fault ≡ NoMemory };

    fn from(_error: AllocFailed<T>) -> ShelfFault {
        ShelfFault::NoMemory
    }
}

/// Files under names, which are taken one at a time, whole or in parts.
pub trait Shelf {
    /// The bytes under each name, where the shelf tells them.
    ghost files: { Self → Option Files };

    /// How often taking a name has failed.
    ghost faults: { Self → List ℕ → ℕ };

    /// Appends the file's bytes to `into`, if there are at most `limit`. A name that the shelf
    /// doesn't have fails, or is a file with no bytes. After a refusal `into` is as before.
    fn take(&mut self, name: &str, limit: u64, into: &mut Vec<u8>) -> Result<(), ShelfFault>
        ensures ok { OnOk result (Takes (files self.old) name.now limit into.old.items into.new.items) }
        ensures err { OnErr result (into.new.items ≡ into.old.items) }
        ensures files { files self.new ≡ files self.old }

        // More bytes than the limit are refused, and no file is longer than any limit.
        ensures too_long { IsErrOf result ShelfFault.TooLong
            → IfSome (files self.old) (λ files. limit < length (bytes_under files name.now)) }
        ensures no_limit { limit ≡ u64.MAX → ¬ IsErrOf result ShelfFault.TooLong }

        // A failure raises the count of its name, and nothing else raises a count.
        ensures failed { IsErrOf result ShelfFault.Failed
            → Rose (faults self.old name.now) (faults self.new name.now) }
        ensures not_failed { ¬ IsErrOf result ShelfFault.Failed
            → faults self.new name.now ≡ faults self.old name.now }
        ensures others { (other : List ℕ) → other ≢ name.now → faults self.new other ≡ faults self.old other }
        ensures never_falls { (any : List ℕ) → faults self.old any ≤ faults self.new any };

    /// Appends at most `most` of the file's bytes from the place `from` on, and says how many: 0 where
    /// no byte stands there. A name that the shelf doesn't have fails, or is a file with no bytes.
    /// After a refusal `into` is as before.
    fn part(
        &mut self,
        name: &str,
        from: u64,
        most: u64,
        into: &mut Vec<u8>,
    ) -> Result<u64, ShelfFault>
        requires { 1 ≤ most }
        ensures ok { IfOk result (TakesPart (files self.old) name.now from most into.old.items into.new.items) }
        ensures err { OnErr result (into.new.items ≡ into.old.items) }
        ensures files { files self.new ≡ files self.old }
        ensures too_long { ¬ IsErrOf result ShelfFault.TooLong }

        // A failure raises the count of its name, and nothing else raises a count.
        ensures failed { IsErrOf result ShelfFault.Failed
            → Rose (faults self.old name.now) (faults self.new name.now) }
        ensures not_failed { ¬ IsErrOf result ShelfFault.Failed
            → faults self.new name.now ≡ faults self.old name.now }
        ensures others { (other : List ℕ) → other ≢ name.now → faults self.new other ≡ faults self.old other }
        ensures never_falls { (any : List ℕ) → faults self.old any ≤ faults self.new any };
}
