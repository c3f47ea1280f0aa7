use letters_and_lassos::Side;
use machine_model::Machine;
use size_search::SizeLog;

/// What a search found, and the logs of its sizes, each of which is closed or full. So the logs tell whether the machine is the least of
/// its side, or that no allowed size has one.
#[derive(Debug, Drop)]
pub struct Outcome {
    pub found: Option<Found>,
    /// With a machine those of its side's smaller sizes, else those of all allowed sizes, the system's first; by rising size.
    pub logs: Vec<SizeLog>,
}

/// A machine, and the side that accepts it.
#[derive(Debug, Drop)]
pub struct Found {
    pub side: Side,
    pub machine: Machine,
}
