//! What the grammar crate must answer, as tables of cases. There is nothing here but tests and what they are written with.
#![tactic(auto)]

#[cfg(test)]
mod answers;
#[cfg(test)]
mod damage;
#[cfg(test)]
mod headers;
#[cfg(test)]
mod productive;
#[cfg(test)]
mod questions;
#[cfg(test)]
mod rooms;
#[cfg(test)]
mod rules;
#[cfg(test)]
mod sheets;
#[cfg(test)]
mod spellings;
#[cfg(test)]
mod tables;
