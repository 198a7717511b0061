//! A sheet that has the form of a table sheet for a grammar, and so claims a table.
ghost use Rattle.grammar.specs.Meaning.{meaning};
ghost use Rattle.tables.specs.Heads.{Formed};

use crate::header::Header;
use grammar::Grammar;

/// The sheet is laid out as the header says. Whether its states are those of the grammar is not yet known.
#[derive(Clone, Copy)]
pub(crate) struct Claim<'a> {
    pub(crate) grammar: &'a Grammar,
    pub(crate) sheet: &'a [u8],
    pub(crate) header: Header,
    ghost formed: { Formed (meaning grammar.now) sheet.now header },
}
