//! What is printed.

use names_and_numbers::Name;
use std::alloc::{AllocError, Global};

/// The bytes of what is printed so far.
#[derive(Drop)]
pub(crate) struct Lines {
    pub(crate) alloc: Global,
    pub(crate) bytes: Vec<u8>,
}

impl Lines {
    pub(crate) fn new(alloc: Global) -> Lines {
        Lines {
            alloc,
            bytes: Vec::new(alloc),
        }
    }

    pub(crate) fn push(&mut self, bytes: &[u8]) -> Result<(), AllocError> {
        self.bytes.extend_from_slice(bytes)
    }

    /// A blank and the name.
    pub(crate) fn push_name(&mut self, name: &Name) -> Result<(), AllocError> {
        self.push(b" ")?;
        self.push(name.bytes())
    }
}
