//! What each program says in the same words.

use std::alloc::{AllocError, Global};
use std::io::Error;

/// Why the output of a program can't be written.
pub fn unwritten_message(
    alloc: Global,
    program: &str,
    error: &Error,
) -> Result<String, AllocError> {
    format!(in alloc; "{program}: error: the output can't be written: {error}\n")
}

/// That standard input is named twice.
pub fn twice_message(alloc: Global, program: &str) -> Result<String, AllocError> {
    format!(in alloc;
        "{program}: error: `-` is standard input, which is read once, and stands there twice\n"
    )
}
