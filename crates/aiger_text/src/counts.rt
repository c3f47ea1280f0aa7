/// The counts of a header: the greatest variable, and how many inputs, latches, outputs and gates there are.
#[derive(Clone, Copy)]
pub(crate) struct Counts {
    pub(crate) variables: u32,
    pub(crate) inputs: u32,
    pub(crate) latches: u32,
    pub(crate) outputs: u64,
    pub(crate) gates: u32,
}
