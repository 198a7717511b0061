//! Any history of one reading, made for real; and the law that every history keeps.
#![tactic(auto)]

mod law;
mod pair;
mod run;
mod step;

pub use law::{
    feeds_in_turn_are_one, histories_are_right, kept_words_begin_a_sentence,
    read_throughs_are_takes, readings_have_no_memory,
};
pub use pair::{Report, read_pair};
pub use run::{perform, replay};
pub use step::{Step, Told};
