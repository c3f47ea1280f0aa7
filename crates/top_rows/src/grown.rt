//! A document with a long log.
//!
//! It shows that no machine of one state passes an input on one step later. The log's last entry is the empty clause; each entry before
//! it has variables that this refutation doesn't name, no two entries the same ones, so it follows by the same hints.

use std::alloc::{AllocError, Global};

/// What stands before the log.
const FRONT: &[u8] =
    b"aag 2 1 1 1 0\n2\n4 2\n4\ni0 r\no0 g\nc\nboundsyn 3\nverdict realizable 2\nkind Mealy\nmax 4\nentries 50000\n";

/// The variables that the refutation doesn't name.
const FREE: [u32; 12] = [4, 6, 7, 8, 9, 11, 12, 13, 15, 16, 17, 18];

/// The document with so many entries. The one of the number `damaged` lacks its first hint.
pub fn grown(alloc: Global, count: u64, damaged: u64) -> Result<Vec<u8>, AllocError> {
    let mut bytes = Vec::from_slice(alloc, FRONT)?;
    let head = format!(in alloc; "log system 1 20 35 {count}\n")?;
    bytes.extend_from_slice(head.as_bytes())?;
    for number in 1..count {
        push_entry(alloc, number, number == damaged, &mut bytes)?;
    }
    push_entry(alloc, 0, count == damaged, &mut bytes)?;
    bytes.extend_from_slice(b"end\n")?;
    Ok(bytes)
}

/// The entry whose variables are the free ones at the bits of a number.
fn push_entry(
    alloc: Global,
    bits: u64,
    is_damaged: bool,
    bytes: &mut Vec<u8>,
) -> Result<(), AllocError> {
    bytes.extend_from_slice(b"1 ")?;
    for (place, variable) in FREE.iter().enumerate() {
        if bits >> place & 1 == 1 {
            let literal = format!(in alloc; "{variable} ")?;
            bytes.extend_from_slice(literal.as_bytes())?;
        }
    }
    let hints: &[u8] = if is_damaged {
        b"0 2 3 4 8 31 30 13 21 0\n"
    } else {
        b"0 1 2 3 4 8 31 30 13 21 0\n"
    };
    bytes.extend_from_slice(hints)
}
