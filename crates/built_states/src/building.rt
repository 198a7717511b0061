//! A table of states that is being built, or is built.
use rows::Row;

// Arrays with a count beside them: built states are `Copy`, and the lists of `arrayvec` are not.
/// The first `count` of `rows` are the rows of the states so far, and the next one is room for a row that may be new. `steps[s][x]` is the
/// step of the state s by the symbol x.
#[derive(Clone, Copy)]
pub(crate) struct Building {
    pub(crate) count: u8,
    pub(crate) rows: [Row; 256],
    pub(crate) steps: [[Option<u8>; 64]; 255],
}
