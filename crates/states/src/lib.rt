//! Sources of LR(0) states: what a reading asks of one, and why a table of states is refused.
#![tactic(auto)]

mod fault;
mod source;

pub use fault::TableFault;
pub use source::StateSource;
