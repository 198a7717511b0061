//! From a set of cells to those that one link leads down to.
ghost use Rattle.link_growth.specs.Entries.{Spread};
ghost use Rattle.links.specs.Sets.{cells_of};
ghost use Rattle.links.specs.Tables.{content, Drawn, Scanned};

use crate::cells::Cells;
use crate::sets::lower_of;
use crate::table::Table;
use link_growth::Cell;

/// Adds the cells that one link leads down to from the cells `here` of a place.
fn scan(table: &Table, here: &Cells, place: u8, there: &mut Cells)
    requires { Drawn (content table.now) (cells_of there.old) }
    ensures { Scanned (content table.now) (cells_of here.now) place (cells_of there.old) (cells_of there.new) }
{
    there.collect(table.of_place(place), |link| {
        let upper = Cell {
            state: link.state,
            place,
        };
        here.has(upper).then_some(lower_of(link))
    });
}

/// Makes `there` the cells that one link leads down to from the cells `here`. Each place that they are at is scanned once.
pub(crate) fn spread(table: &Table, here: &mut Cells, there: &mut Cells)
    ensures { Spread (content table.now) (cells_of here.old) (cells_of there.new) }
{
    there.clear();
    // By index: `revisits` writes to the set, so that its list cannot be lent meanwhile.
    for k in 0..here.list.len() {
        if !here.revisits(k) {
            let place = here.place_of(k);
            scan(table, here, place, there);
        }
    }
}
