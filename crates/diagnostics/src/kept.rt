use shown_text::push_shown;
use std::alloc::{AllocError, Global};

/// The most bytes that are kept of a file.
const MOST_KEPT: usize = 16_777_216;

/// A file that a run took, and what was kept of it.
#[derive(Drop)]
pub struct KeptFile {
    /// Its name as it may be shown.
    pub name: String,
    pub bytes: Vec<u8>,
    /// Whether that is all that was taken.
    pub is_whole: bool,
}

/// Copies of the files that a run took, for messages. Where memory lacks for a copy, nothing more is kept and `is_lost` says so.
#[derive(Drop)]
pub struct KeptFiles {
    alloc: Global,
    files: Vec<KeptFile>,
    failed: Option<String>,
    is_lost: bool,
}

impl KeptFiles {
    pub fn new(alloc: Global) -> KeptFiles {
        KeptFiles {
            alloc,
            files: Vec::new(alloc),
            failed: None,
            is_lost: false,
        }
    }

    /// The files, in the order in which they were taken.
    pub fn files(&self) -> &[KeptFile] {
        &self.files
    }

    /// The name of the last file that couldn't be taken.
    pub fn failed(&self) -> Option<&str> {
        match &self.failed {
            Some(name) => Some(name.as_str()),
            None => None,
        }
    }

    /// Whether memory lacked for a copy.
    pub(crate) fn is_lost(&self) -> bool {
        self.is_lost
    }

    /// Keeps a file that was taken whole.
    pub fn keep(&mut self, name: &str, bytes: &[u8]) {
        if self.push(name, bytes, true).is_err() {
            self.is_lost = true;
        }
    }

    /// Keeps the name of a file that is too long to be taken.
    pub fn keep_name(&mut self, name: &str) {
        if self.push(name, b"", false).is_err() {
            self.is_lost = true;
        }
    }

    /// Keeps a part of a file. One from its start is the first part of another file than the last one.
    pub fn keep_part(&mut self, name: &str, from: u64, bytes: &[u8]) {
        let kept = if from == 0 {
            self.push(name, bytes, true)
        } else {
            self.push_more(bytes)
        };
        if kept.is_err() {
            self.is_lost = true;
        }
    }

    /// Keeps the name of a file that couldn't be taken.
    pub fn keep_failed(&mut self, name: &str) {
        match shown(self.alloc, name) {
            Ok(name) => self.failed = Some(name),
            Err(_) => self.is_lost = true,
        }
    }

    fn push(&mut self, name: &str, bytes: &[u8], is_taken: bool) -> Result<(), AllocError> {
        let front = front(bytes, MOST_KEPT);
        self.files.push(KeptFile {
            name: shown(self.alloc, name)?,
            bytes: Vec::from_slice(self.alloc, front)?,
            is_whole: is_taken && front.len() == bytes.len(),
        })?;
        Ok(())
    }

    fn push_more(&mut self, bytes: &[u8]) -> Result<(), AllocError> {
        match self.files.last_mut() {
            Some(file) => file.keep_more(bytes),
            None => Ok(()),
        }
    }
}

impl KeptFile {
    fn keep_more(&mut self, bytes: &[u8]) -> Result<(), AllocError> {
        let room = MOST_KEPT.saturating_sub(self.bytes.len());
        let front = front(bytes, room);
        self.bytes.extend_from_slice(front)?;
        self.is_whole = self.is_whole && front.len() == bytes.len();
        Ok(())
    }
}

/// At most so many of the first bytes.
fn front(bytes: &[u8], most: usize) -> &[u8] {
    bytes.get(..most).unwrap_or(bytes)
}

fn shown(alloc: Global, name: &str) -> Result<String, AllocError> {
    let mut out = String::new(alloc);
    push_shown(alloc, name.as_bytes(), &mut out)?;
    Ok(out)
}
