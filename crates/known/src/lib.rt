//! Known results of two small grammars, as one theorem on the definitions of parsing.
#![tactic(auto)]

ghost use Rattle.known.specs.Results.{KnownResults};

/// The definitions of item set, step, link, sentence, occurrence and order give each row of the table of known results.
pub fn known_results_hold()
    ensures { KnownResults }
{}
