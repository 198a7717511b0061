//! The words of a feed as text: a line for each word, and a last line for the end or the refusal.
#![tactic(auto)]

mod line;
mod listing;
mod report;

pub use line::{EndLine, WordLine};
pub use listing::list_words;
pub use report::{TextReport, report_words};
