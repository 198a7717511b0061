//! What is told of a table sheet: the report that `inspect_tables` prints of it, and of the grammar sheet that it is for.
#![tactic(auto)]

mod reporting;
mod verdict;

pub use reporting::{full_report, table_report};
pub use verdict::TableVerdict;
