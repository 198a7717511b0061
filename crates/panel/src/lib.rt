//! What a packer's panel shows: a recipe is read by a grammar sheet and a table sheet, and the answer is told in lines.
#![tactic(auto)]

mod answer;
mod fault;
mod gathered;
mod lines;
mod once;
mod reading;
mod showing;
mod sources;

pub use answer::Answer;
pub use fault::{Fault, Input};
pub use gathered::Forest;
pub use once::{readings_have_one_outcome, records_have_one_outcome, texts_have_one_outcome};
pub use showing::{answer_keys, answer_text, read_keys, read_text};
