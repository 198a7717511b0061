//! A table of states that passed its check.
ghost use Rattle.grammar.specs.Meaning.{meaning};
ghost use Rattle.tables.specs.Passing.{Passed};

use crate::header::Header;
use arrayvec::ArrayVec;
use grammar::Grammar;
use rows::Row;

/// A table sheet and the grammar that it is for, with the row of each state by its number. While it exists, its states match the LR(0)
/// item sets of the grammar. The longest sheet has 255 states, 64 symbols and 64 rules.
#[derive(Drop)]
pub struct Table {
    pub(crate) grammar: Grammar,
    pub(crate) sheet: ArrayVec<u8, 32652>,
    pub(crate) header: Header,
    // A slot for each state, so that no row is searched for.
    pub(crate) rows: [Row; 255],
    ghost passed: { ∥ Passed (meaning grammar) sheet.items header rows ∥₁ },
}
