//! The packed forest of a sentence: its nodes and alternatives, read off the links of its words.
#![tactic(auto)]

ghost use Rattle.forest.specs.Statements.{FitIsOne, GatheredOccurs};

mod alternatives;
mod fault;
mod filling;
mod finding;
mod fits;
mod gathering;
mod marks;
mod nodes;
mod part;
mod parts;
mod rule_over;
mod span_table;

pub use fault::GatherFault;
pub use gathering::{Counts, gather};

/// Over the links of the words, what is gathered is what occurs in the derivations of the words.
pub fn what_is_gathered_occurs()
    ensures { GatheredOccurs }
{}

/// Over any words and links there is one answer to what fits, and so to what is met from the start symbol down.
pub fn what_fits_is_one()
    ensures { FitIsOne }
{}
