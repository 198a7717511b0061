//! States that are built from the grammar itself, in the order in which the walk over their table meets them.
#![tactic(auto)]

mod building;
mod builds;
mod built;
mod looks;
mod once;
mod source;
mod writes;

pub use built::BuiltStates;
pub use once::states_are_built_in_one_way;
