//! Closing the last place under the reduction rule.
ghost use Rattle.std.specs.Prelude.{◌≡◌, ℕ, ◌<◌, false, None};
ghost use Rattle.parsing.specs.Grammar.{rule_count};
ghost use Rattle.link_growth.specs.Entries.{Has};
ghost use Rattle.link_growth.specs.Growth.{Makes, Ends, Fired, Shut};
ghost use Rattle.links.specs.Sets.{cells_of};
ghost use Rattle.links.specs.Tables.{content, Making, Ahead};

use crate::cells::Cells;
use crate::fault::TooManyLinks;
use crate::firing::fire;
use crate::levels::spread;
use crate::links::Links;
use crate::over::{Over, Symbol};
use crate::seeds::Seeds;
use crate::table::Table;
use states::StateSource;

impl Table {
    /// Whether some link of the last place stays at its place.
    fn stays(&self) -> bool
        ensures { result ≡ false → (s b : ℕ) → Has (content self.now) s self.now.place b self.now.place → ⊥ }
    {
        self.of_place(self.place)
            .iter()
            .any(|link| link.below_place == self.place)
    }
}

// By recursion: the two sets change places at each step. Moved or copied, they cost more than what is done with them.
/// Adds the links by the symbol from where `steps` links lead down from the cells `here`.
fn descend<S: StateSource>(
    symbol: &Symbol<'_, S>,
    table: &mut Table,
    here: &mut Cells,
    there: &mut Cells,
    steps: u8,
) -> Result<(), TooManyLinks>
    requires { let src = S.meaning symbol.now.over.now.source.now in
        let t = table.old in
        Ends src symbol.now.x steps (cells_of here.old) (content t) (Makes src None t.place (content t)) }
    ensures { let src = S.meaning symbol.now.over.now.source.now in
        let t = table.old in
        let u = table.new in
        Making src None t u symbol.now.over.now.limit result
        (Ends src symbol.now.x steps (cells_of here.old) (content t) (λ s b i. Has (content u) s t.place b i)) }
{
    if steps == 0 {
        return fire(symbol, table, here, there);
    }
    spread(table, here, there);
    descend(symbol, table, there, here, steps - 1)
}

impl Links {
    /// All reductions of a rule, over the chains that have a link from `from` on: those of the links before are made already.
    fn reduce<S: StateSource>(
        &mut self,
        over: &Over<'_, S>,
        rule: u8,
        from: usize,
    ) -> Result<(), TooManyLinks>
        requires rule { rule < rule_count (S.meaning over.now.source.now).grammar }
        requires ahead { Ahead (S.meaning over.now.source.now) self.old.table from }
        ensures { let src = S.meaning over.now.source.now in
            let t = self.old.table in
            let u = self.new.table in
            Making src None t u over.now.limit result (Fired src t.place rule (content t) (content u)) }
    {
        let source = over.source;
        let x = source.left(usize::from(rule));
        let symbol = Symbol { over, x };
        let length = source.length(usize::from(rule));
        let seeds = Seeds {
            source,
            table: &self.table,
            rule,
            from,
        };
        if length == 0 {
            seeds.tops(&mut self.here);
            return fire(&symbol, &mut self.table, &mut self.here, &mut self.there);
        }
        seeds.below(&mut self.here);
        descend(
            &symbol,
            &mut self.table,
            &mut self.here,
            &mut self.there,
            length - 1,
        )
    }

    /// The reductions of all rules.
    fn round<S: StateSource>(&mut self, over: &Over<'_, S>, from: usize) -> Result<(), TooManyLinks>
        requires { Ahead (S.meaning over.now.source.now) self.old.table from }
        ensures { let src = S.meaning over.now.source.now in
            let t = self.old.table in
            let u = self.new.table in
            Making src None t u over.now.limit result
            ((r : ℕ) → r < rule_count src.grammar → Fired src t.place r (content t) (content u)) }
    {
        for rule in 0..over.source.rules() {
            self.reduce(over, rule, from)?;
        }
        Ok(())
    }

    /// Rounds until one adds nothing. Where no link stays at its place, a chain reaches the last place by its first link alone, and a round
    /// begins at the links that the round before has added.
    pub(crate) fn close<S: StateSource>(&mut self, over: &Over<'_, S>) -> Result<(), TooManyLinks>
        ensures { let src = S.meaning over.now.source.now in
            let t = self.old.table in
            let u = self.new.table in
            Making src None t u over.now.limit result (Shut src t.place (content u)) }
    {
        let start = self.table.start_of(self.table.place);
        let mut from = start;
        loop {
            let before = self.table.count;
            self.round(over, from)?;
            if self.table.count == before {
                return Ok(());
            }
            from = if self.table.stays() { start } else { before };
        }
    }
}
