//! Grammar sheets: read into a `Grammar` that keeps all the rules while it exists, questioned, and written back byte for byte.
#![tactic(auto)]

mod fault;
mod few;
mod goal;
mod grammar;
mod head;
mod header;
mod items;
mod marks;
mod parts;
mod questions;
mod reads;
mod refusal;
mod repeats;
mod rule;
mod rules;
mod spelling;
mod spellings;
mod writes;

pub use fault::GrammarFault;
pub use grammar::Grammar;
pub use refusal::{Layer, Refusal};
pub use writes::rewrite;
