//! The known states, in the order in which they became known.
use arrayvec::ArrayVec;
use rows::Row;

/// A known state with the row wanted of it.
#[derive(Clone, Copy, Default)]
pub(crate) struct Known {
    pub(crate) state: u8,
    pub(crate) row: Row,
}

/// At most as many as there are numbers for states.
#[derive(Drop)]
pub(crate) struct KnownStates {
    pub(crate) list: ArrayVec<Known, 255>,
}
