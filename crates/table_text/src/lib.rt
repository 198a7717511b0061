//! Items, states and tables of states as text.
#![tactic(auto)]

mod item;
mod row;
mod state;
mod steps;

pub use item::ItemText;
pub use row::RowText;
pub use state::{StateText, TableText};
