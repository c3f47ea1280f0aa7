//! The sizes of both sides.
use size_search::SizeTask;

/// The tasks of both sides' allowed sizes, of each side from the largest size down.
#[derive(Drop)]
pub struct Sizes {
    pub system: Vec<SizeTask>,
    pub environment: Vec<SizeTask>,
}
