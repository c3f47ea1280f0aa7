//! The file that `-o` names.

use std::alloc::Global;
use std::fs;
use std::io::{self, Write};
use std::rt::Files;

/// A file that is written. Its bytes go to another one beside it, which takes its name at the end; what is no plain file, as a terminal or a pipe, is
/// written at once.
#[derive(Drop)]
pub(crate) struct Target<F: Drop> {
    name: String,
    part: Option<String>,
    file: F,
}

impl<F: Write + Drop> Target<F> {
    /// Opens what is written. Where a link stands at the name, the file that it leads to is meant.
    pub(crate) fn open<R>(rt: &R, alloc: Global, name: &str) -> io::Result<Target<F>>
    where
        R: Files<File = F> + AllocGlobal,
    {
        let name = match fs::canonicalize(rt, name) {
            Ok(path) => path.into_string(),
            Err(_) => String::from_str(alloc, name)?,
        };
        if is_special(rt, name.as_str()) {
            let file = fs::create(rt, name.as_str())?;
            return Ok(Target {
                name,
                part: None,
                file,
            });
        }
        let part = format!(in alloc; "{name}.part")?;
        let file = fs::create(rt, part.as_str())?;
        Ok(Target {
            name,
            part: Some(part),
            file,
        })
    }

    pub(crate) fn write(&mut self, bytes: &[u8]) -> io::Result<()> {
        self.file.write_all(bytes)
    }

    /// Gives the file its name, where it is wanted, else removes it. Where that can't be done, it is removed, too.
    pub(crate) fn end<R: Files<File = F>>(self, rt: &R, is_wanted: bool) -> io::Result<()> {
        let Target { name, part, file } = self;
        let _closed = file;
        let Some(part) = part else {
            return Ok(());
        };
        let named = if is_wanted {
            fs::rename(rt, part.as_str(), name.as_str())
        } else {
            Ok(())
        };
        if !is_wanted || named.is_err() {
            let _ = fs::remove_file(rt, part.as_str());
        }
        named
    }
}

/// Whether something stands at a name that is no plain file.
fn is_special(rt: &impl Files, name: &str) -> bool {
    match fs::metadata(rt, name) {
        Ok(metadata) => !metadata.is_file(),
        Err(_) => false,
    }
}
