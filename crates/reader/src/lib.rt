//! A reading: words are taken one by one over a source of states, and every reading of them is followed together.
#![tactic(auto)]

mod asking;
mod calls;
mod fault;
mod gathering;
mod judging;
mod reading;
mod through;

pub use fault::{ReadingFault, ThroughFault, WordRefused};
pub use forest::Counts;
pub use reading::Reading;
