//! Laws of documents and texts, each the contract of a function that does nothing.
ghost use Rattle.document_check.specs.Laws.{AlikeTextsCheckAlike, BadLinesAreDetermined, ClosedLogsRefuteSizes};

use size_laws::closed_logs_refute;

/// At most one line is the first bad one of a document for a text, and none where the document holds for it.
pub fn bad_lines_are_determined()
    ensures { BadLinesAreDetermined }
{}

/// Each log of a document that holds for a text refutes its size where it ends with the empty clause: its side accepts no machine of
/// the problem, and each has a run that shows it.
pub fn closed_logs_refute_sizes()
    ensures { ClosedLogsRefuteSizes }
{
    closed_logs_refute();
}

/// What is found out of a document depends on a text's names, and on its sides' automata and signals alone.
pub fn alike_texts_check_alike()
    ensures { AlikeTextsCheckAlike }
{}
