//! That a recipe comes to one outcome.
ghost use Rattle.panel.specs.Outcomes.{OneOutcome, OneOfText, OneOfRecord};

/// Reading the words of a feed over a source comes to one outcome.
pub fn readings_have_one_outcome()
    ensures { OneOutcome }
{}

/// A grammar sheet, a table sheet and a text come to one outcome, and to one text that is shown.
pub fn texts_have_one_outcome()
    ensures { OneOfText }
{}

/// A grammar sheet, a table sheet and a record of keys come to one outcome, and to one text that is shown.
pub fn records_have_one_outcome()
    ensures { OneOfRecord }
{}
