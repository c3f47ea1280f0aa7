//! What a net has to be set on.

/// The columns of the leaves and of the targets. All sets have as many words; where columns don't fill these, some stand there again.
#[derive(Drop)]
pub struct Problem {
    /// The words of a set of columns.
    pub width: usize,
    /// The inputs, and the latches behind them.
    pub leaves: Vec<Vec<u64>>,
    pub inputs: usize,
    /// The outputs, and the next values of the latches behind them.
    pub targets: Vec<Vec<u64>>,
    pub outputs: usize,
    /// Whether no gate below an output may use an input.
    pub is_moore: bool,
}

impl Problem {
    /// The first node that a target may use.
    pub fn first_node(&self, target: usize) -> usize {
        if self.is_moore && target < self.outputs {
            self.inputs.saturating_add(1)
        } else {
            1
        }
    }
}
