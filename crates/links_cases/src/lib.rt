//! What the links crate must answer, as tables of cases. There is nothing here but tests and what they are written with.
#![tactic(auto)]

#[cfg(test)]
mod limits;
#[cfg(test)]
mod sheets;
#[cfg(test)]
mod taken;
