//! What word feeds must answer, as tables of cases. There is nothing here but tests and what they are written with.
#![tactic(auto)]

#[cfg(test)]
mod answers;
#[cfg(test)]
mod keys;
#[cfg(test)]
mod long;
#[cfg(test)]
mod mixed;
#[cfg(test)]
mod texts;
