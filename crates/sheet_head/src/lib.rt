//! The head of a sheet, whatever the sheet says: six numbers of 16 bits, each with its high byte first.
#![tactic(auto)]

mod head;

pub use head::{head_bytes, read_head};
