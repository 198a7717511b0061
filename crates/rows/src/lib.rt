//! Rows of items: the row of an LR(0) state as 64 bytes, completed and stepped.
#![tactic(auto)]

mod complete;
mod next;
mod row;
mod step;
mod symbols;

pub use row::Row;
pub use symbols::SymbolSet;
