//! What can be told of a grammar sheet in words: the report that `inspect` prints, and the parts that it is made of.
#![tactic(auto)]

mod explanation;
mod fields;
mod listing;
mod name;
mod reporting;
mod rule;

pub use explanation::Explanation;
pub use listing::{Listing, RuleLine};
pub use name::Name;
pub use reporting::{SheetReport, refusal_report, report};
pub use rule::{RightSymbols, RuleText};
