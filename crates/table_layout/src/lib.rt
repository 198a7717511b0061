//! Where the parts of a table sheet stand: the step of a state by a symbol, the done mark of a state for a rule, and the ends of both.
#![tactic(auto)]

mod layout;

pub use layout::Layout;
