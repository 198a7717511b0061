//! What built states and checked tables must answer, as tables of cases. There is nothing here but tests and what they are written with.
#![tactic(auto)]

#[cfg(test)]
mod answers;
#[cfg(test)]
mod damage;
#[cfg(test)]
mod limits;
#[cfg(test)]
mod rooms;
#[cfg(test)]
mod state_rows;
#[cfg(test)]
mod table_sheets;
