//! What tables are: laws over the definitions, each the contract of a function with an empty body.
ghost use Rattle.valuations.specs.machine.Laws.{RowsAreValuations, SameValuationsSameTable, InTableBinds};

/// A row as long as the columns is in a table exactly where the valuation that it stands for is.
pub fn rows_are_valuations()
    ensures { RowsAreValuations }
{}

/// Tables of the same columns that have the same valuations are the same.
pub fn same_valuations_same_table()
    ensures { SameValuationsSameTable }
{}

/// A valuation that is in a table binds its columns.
pub fn in_table_binds()
    ensures { InTableBinds }
{}
