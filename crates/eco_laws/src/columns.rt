//! Laws of rows of signals' values.

ghost use Rattle.eco_laws.specs.Columns.{RowsTell, WorkingIsInPlay};

/// Rows of values tell, column by column, at which signals two inputs agree; so they show conflicts.
pub fn rows_tell_signals()
    ensures rows { RowsTell }
    ensures working { WorkingIsInPlay }
{}
