//! Adding to a set of cells, and taking from it.
ghost use Rattle.std.specs.Prelude.{◌≡◌, ◌<◌, true, false, ◌↔◌, [], length};
ghost use Rattle.std.specs.Fn.{FnReturnsAt};
ghost use Rattle.link_growth.specs.declared.Cell.{Cell as SomeCell};
ghost use Rattle.link_growth.specs.Entries.{Mem, upper, lower};
ghost use Rattle.link_growth.specs.Picking.{Inserted};
ghost use Rattle.links.specs.Listing.{place_at};
ghost use Rattle.links.specs.Sets.{cells_of, Popped, Revisits, Roomy, Collected};

use crate::cells::Cells;
use arrayvec::ArrayVec;
use link_growth::{Cell, Link};

/// The cell that a link leads from.
pub(crate) fn upper_of(link: &Link) -> Cell
    ensures { result ≡ upper link.now }
{
    Cell {
        state: link.state,
        place: link.place,
    }
}

/// The cell that a link leads down to.
pub(crate) fn lower_of(link: &Link) -> Cell
    ensures { result ≡ lower link.now }
{
    Cell {
        state: link.below,
        place: link.below_place,
    }
}

impl Cells {
    /// The set of no cells.
    pub(crate) fn new() -> Cells
        ensures { cells_of result ≡ [] }
    {
        Cells {
            marks: [[false; 256]; 256],
            list: ArrayVec::new(),
            seen: [0; 256],
        }
    }

    /// Whether a cell is in the set.
    pub(crate) fn has(&self, c: Cell) -> bool
        ensures there { result ≡ true → Mem c (cells_of self.now) }
        ensures absent { result ≡ false → Mem c (cells_of self.now) → ⊥ }
    {
        self.marks[usize::from(c.place)][usize::from(c.state)]
    }

    /// The place of the cell k.
    pub(crate) fn place_of(&self, k: usize) -> u8
        requires { k < length (cells_of self.now) }
        ensures { result ≡ place_at (cells_of self.now) k }
    {
        self.list.as_slice()[k].place
    }

    /// Whether an earlier cell is known to be at the place of the cell k; that place is known from then on.
    pub(crate) fn revisits(&mut self, k: usize) -> bool
        requires { k < length (cells_of self.old) }
        ensures { Revisits self.old k result self.new }
    {
        let place = self.place_of(k);
        let h = self.seen[usize::from(place)];
        if h < k && self.place_of(h) == place {
            return true;
        }
        self.seen[usize::from(place)] = k;
        false
    }

    /// Adds a cell, unless it is there.
    pub(crate) fn insert(&mut self, c: Cell)
        requires { (Mem c (cells_of self.old) → ⊥) → length (cells_of self.old) < 4097 }
        ensures { Inserted c (cells_of self.old) (cells_of self.new) }
    {
        if self.has(c) {
            return;
        }
        self.marks[usize::from(c.place)][usize::from(c.state)] = true;
        self.list.push(c);
    }

    /// Takes a cell out; none where there is none.
    pub(crate) fn pop(&mut self) -> Option<Cell>
        ensures { Popped self.old result self.new }
    {
        let c = self.list.pop()?;
        self.marks[usize::from(c.place)][usize::from(c.state)] = false;
        Some(c)
    }

    /// Takes all cells out.
    pub(crate) fn clear(&mut self)
        ensures { cells_of self.new ≡ [] }
    {
        while self.pop().is_some() {}
    }

    /// Adds the cells that are picked from the links.
    pub(crate) fn collect<F: Fn(&Link) -> Option<Cell>>(&mut self, links: &[Link], pick: F)
        requires calls { F.IsAlwaysCallable pick }
        requires room { Roomy (FnReturnsAt F.Fn pick) links.now (cells_of self.old) }
        ensures { Collected (FnReturnsAt F.Fn pick) links.now (cells_of self.old) (cells_of self.new) }
    {
        for link in links {
            if let Some(c) = pick(link) {
                self.insert(c);
            }
        }
    }
}
