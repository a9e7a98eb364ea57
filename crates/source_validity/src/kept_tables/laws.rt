//! Laws of the tables of expanded programs.
ghost use Rattle.source_validity.specs.KeptTables.{CheckedTablesKept, ElaboratedConstantsKept, ExpandedTablesKept};

/// No piece of an expanded program sets an element of a table, where its core program sets no object that is const.
pub fn expanded_tables_kept()
    ensures { ExpandedTablesKept }
{}

/// The core program of a program without faults sets no object that is const.
pub fn elaborated_constants_kept()
    ensures { ElaboratedConstantsKept }
{}

/// No piece of the expansion of such a program sets an element of a table.
pub fn checked_tables_kept()
    ensures { CheckedTablesKept }
{}
