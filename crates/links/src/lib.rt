//! The links of a reading, as a table that is closed place by place under the word rule and the reduction rule.
#![tactic(auto)]

mod adding;
mod asking;
mod cells;
mod closing;
mod fault;
mod firing;
mod keeping;
mod levels;
mod links;
mod over;
mod seeds;
mod sets;
mod shifting;
mod table;
mod taking;
mod wordwise;

pub use fault::{TakeFault, TooManyLinks};
pub use links::Links;
pub use wordwise::links_are_those_of_the_words;
