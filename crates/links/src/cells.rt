//! A set of cells: states at places.
ghost use Rattle.std.specs.Prelude.{◌≡◌, ℕ, ◌<◌, true, [], length, slice_index_or};
ghost use Rattle.link_growth.specs.declared.Cell.{Cell as SomeCell};
ghost use Rattle.links.specs.Listing.{listed, distinct, mark};

use arrayvec::ArrayVec;
use link_growth::Cell;

/// The cells of the set are in `list`, each once. They, and no others, are marked, so that a set is emptied by its own cells alone.
/// `seen[i]` may be an index of a cell of the place i: it is looked at before it is believed, so that it is never cleared.
#[derive(Drop)]
pub(crate) struct Cells {
    pub(crate) marks: [[bool; 256]; 256],
    pub(crate) list: ArrayVec<Cell, 4097>,
    pub(crate) seen: [usize; 256],
    ghost places: { length marks ≡ 256 },
    ghost states: { ((i : ℕ) → i < 256 → length (slice_index_or marks i []) ≡ 256) },
    ghost marked: { ((c : SomeCell) → mark marks c ≡ listed c list.items) },
    ghost once: { distinct list.items ≡ true },
}
