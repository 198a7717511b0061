//! What a gathering must answer, as tables of cases. There is nothing here but tests and what they are written with.
#![tactic(auto)]

#[cfg(test)]
mod answers;
#[cfg(test)]
mod cases;
