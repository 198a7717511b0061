//! The records of a forest: nodes and alternatives, with their orders.
#![tactic(auto)]

mod alternative;
mod node;

pub use alternative::Alternative;
pub use node::Node;
