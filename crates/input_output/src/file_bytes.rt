ghost use Rattle.std.specs.Prelude.{◌≡◌, IfOk};

use std::alloc::{AllocError, Global};
use std::marker::Model;

/// The bytes of a file. A contract sees the list of them.
#[derive(Debug, Drop)]
pub struct FileBytes {
    bytes: Vec<u8>,
}

impl Model for FileBytes {
    ghost use Rattle.std.specs.Prelude.{ℕ, List};

    ghost Value = { List ℕ };

    ghost view = { λ file. file.bytes.items };
}

impl FileBytes {
    /// Copies the bytes.
    pub fn new(alloc: Global, bytes: &[u8]) -> Result<FileBytes, AllocError>
        ensures bytes { IfOk result (λ file. file ≡ bytes.now) }
    {
        Ok(FileBytes {
            bytes: Vec::from_slice(alloc, bytes)?,
        })
    }

    pub fn bytes(&self) -> &[u8]
        ensures bytes { result.now ≡ self.now }
    {
        &self.bytes
    }
}
