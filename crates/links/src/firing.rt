//! The links from the cells where the chains of a reduction end.
ghost use Rattle.std.specs.Prelude.{None};
ghost use Rattle.link_growth.specs.Entries.{Has};
ghost use Rattle.link_growth.specs.Growth.{Makes, Ends};
ghost use Rattle.links.specs.Sets.{cells_of};
ghost use Rattle.links.specs.Tables.{content, Making, Marked};

use crate::cells::Cells;
use crate::fault::TooManyLinks;
use crate::over::Symbol;
use crate::sets::lower_of;
use crate::table::Table;
use link_growth::Link;
use states::StateSource;

/// Makes `there` the cells of `here` that have their link by the symbol at the last place already.
fn mark_linked<S: StateSource>(
    symbol: &Symbol<'_, S>,
    table: &Table,
    here: &Cells,
    there: &mut Cells,
)
    ensures { let src = S.meaning symbol.now.over.now.source.now in
        let t = table.now in
        Marked src symbol.now.x t.place (content t) (cells_of here.now) (cells_of there.new) }
{
    there.clear();
    let source = symbol.over.source;
    there.collect(table.of_place(table.place), |link| {
        let c = lower_of(link);
        let linked = here.has(c) && source.next(link.below, symbol.x) == Some(link.state);
        linked.then_some(c)
    });
}

/// Adds the links by the symbol from the cells `here`. The links of the last place are looked through once, for all cells together.
pub(crate) fn fire<S: StateSource>(
    symbol: &Symbol<'_, S>,
    table: &mut Table,
    here: &mut Cells,
    there: &mut Cells,
) -> Result<(), TooManyLinks>
    requires { let src = S.meaning symbol.now.over.now.source.now in
        let t = table.old in
        Ends src symbol.now.x 0 (cells_of here.old) (content t) (Makes src None t.place (content t)) }
    ensures { let src = S.meaning symbol.now.over.now.source.now in
        let t = table.old in
        let u = table.new in
        Making src None t u symbol.now.over.now.limit result
        (Ends src symbol.now.x 0 (cells_of here.old) (content t) (λ s b i. Has (content u) s t.place b i)) }
{
    if here.list.is_empty() {
        return Ok(());
    }
    mark_linked(symbol, table, here, there);
    let over = symbol.over;
    while let Some(c) = here.pop() {
        if there.has(c) {
            continue;
        }
        let Some(state) = over.source.next(c.state, symbol.x) else {
            continue;
        };
        let link = Link {
            state,
            place: table.place,
            below: c.state,
            below_place: c.place,
        };
        table.push(link, over.limit)?;
    }
    Ok(())
}
