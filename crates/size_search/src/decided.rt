use machine_model::Machine;

/// How the search of a size ended.
#[derive(Debug, Drop)]
pub enum Decided {
    /// With a machine of this size that the side accepts.
    Found(Machine),
    /// With a closed log: the side accepts no machine of this size.
    Refuted,
    /// With a log that has as many entries as its limit allows, and isn't closed.
    Full,
}
