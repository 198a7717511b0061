//! A rule as a grammar holds it.
use crate::few::Few;

/// A left symbol, and at most seven right symbols.
#[derive(Clone, Copy)]
pub(crate) struct Rule {
    pub(crate) left: u8,
    pub(crate) right: Few<u8, 7>,
}
