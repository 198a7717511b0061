//! The format of grammar sheets: what the bytes say, which rules they keep, and which refusal comes first. Each function's contract is a theorem.
#![tactic(auto)]

ghost use Rattle.grammar_format.specs.Statements.{Sufficiency, Necessity, Uniqueness};

/// Bytes to which no row of the refusals applies are those of a sheet that keeps the rules.
pub fn clean_bytes_are_sheets()
    ensures { Sufficiency }
{}

/// To the bytes of a sheet that keeps the rules no row applies, and they say that sheet alone.
pub fn sheets_are_clean_bytes()
    ensures { Necessity }
{}

/// One refusal comes first.
pub fn one_refusal_is_first()
    ensures { Uniqueness }
{}
