//! The laws of rows, as contracts without code.

ghost use Rattle.cpg_run.specs.Carrying.{CarryingTablesAreLawful, ListedRowsCarry};
ghost use Rattle.cpg_run.specs.Found.{FoundRowsAreWritable, FoundRowsFit, FoundTablesAreBuilt};
ghost use Rattle.cpg_run.specs.RowLaws.{CarriedDecides, CarriedRestsOnEarlier, EntriesHaveTimes, RowsHaveTimes};

/// What is carried beside a time is found in the rows of items from earlier processes alone.
pub fn carried_rests_on_earlier()
    ensures { CarriedRestsOnEarlier }
{}

/// If what is carried beside a time holds in another scenario, the item is active there too, at the same time, and
/// the same is carried.
pub fn carried_decides()
    ensures { CarriedDecides }
{}

/// The entries of an item can be merged, and have the times of the runs.
pub fn entries_have_times()
    ensures { EntriesHaveTimes }
{}

/// Rows of merged entries have the times of the runs, and the row of an item that is never active has no column.
pub fn rows_have_times()
    ensures { RowsHaveTimes }
{}

/// Tables whose columns say no more than is carried beside their times are exact and supported, and keep all rules but,
/// if an end is past its due, V9. No row has more columns than its item has views.
pub fn carrying_tables_are_lawful()
    ensures { CarryingTablesAreLawful }
{}

/// The columns of merged entries say no more than is carried beside their times.
pub fn listed_rows_carry()
    ensures { ListedRowsCarry }
{}

/// Rows that are found are within the limits of a row and of all rows, if no item is too wide.
pub fn found_rows_fit()
    ensures { FoundRowsFit }
{}

/// Rows that are found can be written as tables, if they are within the limits of a row and of all rows.
pub fn found_rows_are_writable()
    ensures { FoundRowsAreWritable }
{}

/// The tables of rows that are found, with the greatest finish and excess of the runs, are what a builder answers.
pub fn found_tables_are_built()
    ensures { FoundTablesAreBuilt }
{}
