//! Files that are kept in memory, as the two shelves have them.
ghost use Rattle.std.specs.Prelude.{◌≡◌};
ghost use Rattle.std.specs.Option.{option_copied};
ghost use Rattle.input_output.specs.Files.{files_of, part_of as part_from};

use crate::FileBytes;
use names_and_numbers::Name;

/// The bytes of the first file of that name.
pub(crate) fn find<'a>(files: &'a [(Name, FileBytes)], name: &str) -> Option<&'a [u8]>
    ensures first { option_copied result ≡ files_of files.now name.now }
{
    for (file, bytes) in files {
        if file.bytes() == name.as_bytes() {
            return Some(bytes.bytes());
        }
    }
    None
}

/// As many as there are, up to `most`, of the bytes from a place on.
pub(crate) fn part_of(bytes: &[u8], from: u64, most: u64) -> &[u8]
    ensures { result.now ≡ part_from bytes.now from most }
{
    let rest = &bytes[bytes.len().min(from as usize)..];
    &rest[..rest.len().min(most as usize)]
}
