//! Laws of the definitions, which no code needs.
ghost use Rattle.batch_answer.specs.Laws.{AnswersAreLines, BatchesAreReadBack, ListsAreDetermined};

/// Bytes are one list, or have one first bad line, and not both.
pub fn lists_are_determined()
    ensures { ListsAreDetermined }
{}

/// An answer to a text is whole lines, so its lines are as many as its line ends.
pub fn answers_are_lines()
    ensures { AnswersAreLines }
{}

/// The bytes of a batch tell one status and the same lines of each text, whatever texts they answer.
pub fn batches_are_read_back()
    ensures { BatchesAreReadBack }
{}
