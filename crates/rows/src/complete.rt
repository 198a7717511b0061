//! Completing a row, and the first row.
ghost use Rattle.std.specs.Prelude.{◌≡◌, ◌<◌, true, MatchBool};
ghost use Rattle.parsing.specs.Grammar.{rule_count};
ghost use Rattle.table_format.specs.ItemSets.{Completed, FirstRow};
ghost use Rattle.grammar.specs.Meaning.{meaning};
ghost use Rattle.rows.specs.Rows.{items, member};
ghost use Rattle.rows.specs.Changes.{Within, Nexts, Led, Predicts, missing};

use crate::row::Row;
use crate::symbols::SymbolSet;
use grammar::Grammar;

impl Row {
    /// Adds the first item of each rule whose left symbol comes next, and says whether one was added. `next` has the symbols that come
    /// next, before and after.
    fn predict(&mut self, grammar: &Grammar, next: &mut SymbolSet) -> bool
        requires { Nexts (meaning grammar.now) (items self.old) (member next.old) }
        ensures next { Nexts (meaning grammar.now) (items self.new) (member next.new) }
        ensures within { Within (items self.old) (items self.new) }
        ensures led { Led (meaning grammar.now) (items self.old) (items self.new) }
        ensures cases { MatchBool result (missing (items self.new) 64 < missing (items self.old) 64) (Predicts (meaning grammar.now) (items self.new) (rule_count (meaning grammar.now))) }
    {
        let mut added = false;
        for rule in 0..usize::from(grammar.rules()) {
            if next.has(usize::from(grammar.left(rule))) && !self.holds(rule, 0) {
                self.add(rule, 0);
                next.add(grammar.right(rule, 0));
                added = true;
            }
        }
        added
    }

    /// Completes the row: adds the first item of each rule whose left symbol comes next in an item, until none is to be added.
    pub fn complete(&mut self, grammar: &Grammar)
        ensures { Completed (meaning grammar.now) (λ r d. items self.old r d ≡ true) (items self.new) }
    {
        let mut next = self.next_symbols(grammar);
        while self.predict(grammar, &mut next) {}
    }

    /// The first row of a grammar: the item (0, 0), completed.
    pub fn first(grammar: &Grammar) -> Row
        ensures { FirstRow (meaning grammar.now) (items result) }
    {
        let mut row = Row::empty();
        row.add(0, 0);
        row.complete(grammar);
        row
    }
}
