//! Tables of LR(0) states that are supplied as sheets: checked against the grammar, and then a source of states.
#![tactic(auto)]

mod check;
mod claim;
mod finding;
mod form;
mod header;
mod known;
mod looks;
mod reads;
mod source;
mod table;
mod walk;

pub use finding::Finding;
pub use table::Table;
