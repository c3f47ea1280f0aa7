/// Why a node wasn't added.
#[derive(Clone, Copy, Debug, PartialEq, Eq)]
pub enum AddFault {
    /// As many nodes stand as there may be, and the node isn't among them.
    TooManyNodes,
    /// There was no memory.
    NoMemory,
}
