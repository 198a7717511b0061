//! What the reader and replay crates must answer, as tables of cases. There is nothing here but tests and what they are written with.
#![tactic(auto)]

#[cfg(test)]
mod answers;
#[cfg(test)]
mod calls;
#[cfg(test)]
mod forests;
#[cfg(test)]
mod linked;
#[cfg(test)]
mod pairs;
#[cfg(test)]
mod refusals;
#[cfg(test)]
mod replays;
#[cfg(test)]
mod sheets;
#[cfg(test)]
mod throughs;
