//! The links of a reading.
use crate::cells::Cells;
use crate::table::Table;

/// A table of links, with room for the cells that a reduction comes to.
#[derive(Drop)]
pub struct Links {
    pub(crate) table: Table,
    pub(crate) here: Cells,
    pub(crate) there: Cells,
}
