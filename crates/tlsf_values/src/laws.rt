//! Laws of the definitions, which no code needs.

ghost use Rattle.tlsf_values.specs.Rows.{RowsEvaluate};

/// The worked rows have their values, or their first faults.
pub fn rows_evaluate()
    ensures { RowsEvaluate }
{}
