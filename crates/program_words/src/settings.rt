use letters_and_lassos::{Kind, Side};
use synth_engine::Settings as Search;

/// What the words ask for. Names are those of files. A search has 1 to 8 workers; where many texts are searched, at most 4 and as many
/// states.
#[derive(Clone, Copy)]
pub enum Settings<'a> {
    Synth {
        spec: &'a str,
        search: Search,
        /// In place of the text's own kind.
        kind: Option<Kind>,
    },
    Check {
        spec: &'a str,
        certificate: &'a str,
    },
    Expand {
        spec: &'a str,
    },
    /// The text as `solve` takes it.
    ExpandSolve {
        spec: &'a str,
        /// In place of the text's own kinds.
        kind: Option<Kind>,
        /// Whether the list of its formulas is wanted, too.
        nodes: bool,
    },
    Lasso {
        spec: &'a str,
        word: &'a str,
    },
    /// The text as `solve` takes it.
    LassoSolve {
        spec: &'a str,
        word: &'a str,
        /// In place of the text's own kinds.
        kind: Option<Kind>,
    },
    /// Clients are 1 to 8.
    Gen {
        clients: u32,
    },
    /// Clients are 1 to 4, workers 1 to 8.
    Bench {
        clients: u32,
        workers: u32,
    },
    Verify {
        /// The side that the circuit plays.
        side: Side,
        /// In place of the text's own kinds.
        kind: Option<Kind>,
        spec: &'a str,
        circuit: &'a str,
    },
    Core {
        spec: &'a str,
        search: Search,
        /// In place of the text's own kind.
        kind: Option<Kind>,
    },
    /// Each text is searched for on its own; the workers are those that share the texts.
    Batch {
        /// Of a file with the names of the texts.
        list: &'a str,
        search: Search,
    },
    /// Each text of a list is solved on its own; the workers, 1 to 4, are those that share the texts.
    SolveList {
        /// Of a file with the names of the texts.
        list: &'a str,
        /// In place of the texts' own kinds.
        kind: Option<Kind>,
        /// How many sizes are refuted at most, 0 to 16. None where that goes by how large they are.
        max: Option<u32>,
        /// The most entries of a log, if there is a limit.
        entries: Option<u64>,
        workers: u32,
        /// For how long it works at a text, 1 to 86,400. None where that isn't limited.
        seconds: Option<u32>,
    },
    /// Workers are 1 to 8.
    Solve {
        spec: &'a str,
        /// In place of the text's own kinds.
        kind: Option<Kind>,
        /// How many sizes are refuted at most, 0 to 16. None where that goes by how large they are.
        max: Option<u32>,
        /// The most entries of a log, if there is a limit.
        entries: Option<u64>,
        workers: u32,
        /// For how long it works at a text, 1 to 86,400. None where that isn't limited.
        seconds: Option<u32>,
    },
}
