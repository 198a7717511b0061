//! Tables of LR(0) states and their sheets: definitions, and theorems that functions carry as their contracts.
#![tactic(auto)]

ghost use Rattle.table_format.specs.Statements.{Exactness, Determinacy, Lawfulness, Counting};
ghost use Rattle.table_format.specs.Statements.{OneSource, SheetExactness, SheetDeterminacy, Writing, Reading, Witness};

/// The walk over a table passes exactly when its states match the LR(0) item sets.
pub fn walks_are_exact()
    ensures { Exactness }
{}

/// The walk over a table has one outcome.
pub fn walks_are_determined()
    ensures { Determinacy }
{}

/// A table whose states match the LR(0) item sets is a lawful source of states, and answers nothing outside the ranges.
pub fn matching_tables_are_lawful()
    ensures { Lawfulness }
{}

/// A table whose states match the LR(0) item sets has as many states as there are item sets.
pub fn states_count_the_item_sets()
    ensures { Counting }
{}

/// The check of a sheet passes exactly when the sheet has the form and its states match the LR(0) item sets.
pub fn checks_are_exact()
    ensures { SheetExactness }
{}

/// The check of a sheet has one outcome.
pub fn checks_are_determined()
    ensures { SheetDeterminacy }
{}

/// What is written of a table whose states match the LR(0) item sets passes, and says that table.
pub fn written_tables_pass()
    ensures { Writing }
{}

/// A sheet that has the form is what is written of the table that it says.
pub fn sheets_are_written_tables()
    ensures { Reading }
{}

/// A small sheet passes: the other theorems do not speak of nothing.
pub fn some_sheet_passes()
    ensures { Witness }
{}

/// A table whose states match the LR(0) item sets is one source of states, whichever rows tell that they match.
pub fn tables_are_one_source()
    ensures { OneSource }
{}
