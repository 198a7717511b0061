//! What a recipe must come to, as tables of cases. There is nothing here but tests and what they are written with.
#![tactic(auto)]

#[cfg(test)]
mod answers;
#[cfg(test)]
mod keys;
#[cfg(test)]
mod lengths;
#[cfg(test)]
mod sheets;
#[cfg(test)]
mod texts;
