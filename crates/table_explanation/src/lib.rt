//! The faults of table sheets in plain words.
#![tactic(auto)]

mod explanation;
mod fields;
mod lines;
mod rule;

pub use explanation::TableExplanation;
