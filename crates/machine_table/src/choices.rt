//! Which of several documents is meant.

/// Which of the documents that `core` or `batch` wrote is meant.
#[derive(Clone, Copy)]
pub enum Choice<'a> {
    /// The first one with a circuit.
    First,
    /// What `batch` wrote of the text with that name.
    Text(&'a [u8]),
    /// What `core` wrote of the guarantees that it keeps.
    Core,
    /// What `core` wrote of these guarantees less that one, by its number from 1.
    Without(u64),
}

/// What a document within a longer output belongs to.
#[derive(Clone, Copy)]
pub(crate) enum Owner<'a> {
    Text(&'a [u8]),
    Core,
    Without(u64),
}

impl<'a> Choice<'a> {
    pub(crate) fn takes(self, owner: Owner<'_>, document: &[u8]) -> bool {
        match (self, owner) {
            (Choice::First, _) => document.starts_with(b"aag "),
            (Choice::Text(wanted), Owner::Text(name)) => wanted == name,
            (Choice::Core, Owner::Core) => true,
            (Choice::Without(wanted), Owner::Without(number)) => wanted == number,
            _ => false,
        }
    }
}
