//! The parts of a grammar sheet.
use crate::few::Few;
use crate::header::Header;
use crate::rule::Rule;
use crate::spelling::Spelling;

/// A header with its rules and its spellings.
#[derive(Clone, Copy)]
pub(crate) struct Parts {
    pub(crate) header: Header,
    pub(crate) rules: Few<Rule, 64>,
    pub(crate) spellings: Few<Spelling, 40>,
}
