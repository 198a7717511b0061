//! What the programs make of a known result, as theorems on the definitions that their contracts cite.
#![tactic(auto)]

ghost use Rattle.known_output.specs.Sheets.{KnownSheets};
ghost use Rattle.known_output.specs.Output.{KnownOutput};

/// The sheets of P are these bytes, and a text and a record of keys say these words.
pub fn known_sheets_hold()
    ensures { KnownSheets }
{}

/// What is shown of that text and of that record is this text, and no other.
pub fn known_output_is_printed()
    ensures { KnownOutput }
{}
