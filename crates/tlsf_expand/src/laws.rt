//! Laws of the definitions, which no code needs.

ghost use Rattle.tlsf_expand.specs.FewSignals.{ExpansionHasFewSignals};
ghost use Rattle.tlsf_expand.specs.Laws.{ExpansionKeepsMeaning};
ghost use Rattle.tlsf_expand.specs.Rows.{RowsExpand};

/// Where a text is expanded, the flat formula of the whole holds on a lasso exactly where the text means so.
pub fn expansion_keeps_meaning()
    ensures { ExpansionKeepsMeaning }
{}

/// The worked rows have their flat sections, their first faults or their meaning.
pub fn rows_expand()
    ensures { RowsExpand }
{}

/// A text that is expanded has at most as many inputs and as many outputs as the limits say, and its formulas speak of those signals alone.
pub fn expansion_has_few_signals()
    ensures { ExpansionHasFewSignals }
{}
