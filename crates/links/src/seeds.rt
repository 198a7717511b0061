//! The cells from which the reductions of a rule begin.
ghost use Rattle.std.specs.Prelude.{◌≡◌, ◌≤◌, true, [], drop, slice_index};
ghost use Rattle.link_growth.specs.Entries.{lower};
ghost use Rattle.link_growth.specs.Picking.{Picked, Tops};
ghost use Rattle.links.specs.Sets.{cells_of};
ghost use Rattle.links.specs.Tables.{content, Bottom};

use crate::cells::Cells;
use crate::sets::{lower_of, upper_of};
use crate::table::Table;
use link_growth::Cell;
use states::StateSource;

/// A rule, and the links from `from` on of a table.
#[derive(Drop)]
pub(crate) struct Seeds<'a, S: StateSource> {
    pub(crate) source: &'a S,
    pub(crate) table: &'a Table,
    pub(crate) rule: u8,
    pub(crate) from: usize,
}

impl<S: StateSource> Seeds<'_, S> {
    /// Makes `here` the cells below the links in whose states the rule is done.
    pub(crate) fn below(&self, here: &mut Cells)
        ensures { let src = S.meaning self.now.source.now in
            let late = drop self.now.from (content self.now.table.now) in
            Picked (λ l. src.done l.state self.now.rule ≡ true) lower late [] (cells_of here.new) }
    {
        here.clear();
        here.collect(self.table.since(self.from), |link| {
            self.source
                .done(link.state, self.rule)
                .then_some(lower_of(link))
        });
    }

    /// Makes `here` the cell of the first state, where it is live at the last place and the rule is done in it; else no cell.
    fn first(&self, here: &mut Cells)
        ensures { Bottom (S.meaning self.now.source.now) self.now.table.now.place self.now.rule (cells_of here.new) }
    {
        here.clear();
        if self.table.place == 0 {
            let first = self.source.first();
            if self.source.done(first, self.rule) {
                here.insert(Cell {
                    state: first,
                    place: 0,
                });
            }
        }
    }

    // Not one call with `below`: the other end of a link is taken, and the set begins with the first state.
    /// Makes `here` the cells of the states in which the rule is done: those of the links, and the first where it is live at the last place.
    pub(crate) fn tops(&self, here: &mut Cells)
        requires since { slice_index self.now.table.now.starts self.now.table.now.place ≤ self.now.from }
        requires until { self.now.from ≤ self.now.table.now.count }
        ensures { let src = S.meaning self.now.source.now in
            let t = self.now.table.now in
            Tops src t.place self.now.rule self.now.from (content t) (cells_of here.new) }
    {
        self.first(here);
        here.collect(self.table.since(self.from), |link| {
            self.source
                .done(link.state, self.rule)
                .then_some(upper_of(link))
        });
    }
}
