//! Which symbols come next in the items of a row.
ghost use Rattle.std.specs.Prelude.{◌<◌, length};
ghost use Rattle.parsing.specs.Grammar.{rule_count, rhs};
ghost use Rattle.grammar.specs.Meaning.{meaning};
ghost use Rattle.rows.specs.Rows.{items, member};
ghost use Rattle.rows.specs.Changes.{Nexts, Gathers};

use crate::row::Row;
use crate::symbols::SymbolSet;
use grammar::Grammar;

impl Row {
    // Not one walk with `sweep`, by a closure: another kind of set grows, and each promise is told of its own.
    /// Adds the symbols that come next in the items of one rule.
    fn gather(&self, grammar: &Grammar, rule: usize, next: &mut SymbolSet)
        requires { rule < rule_count (meaning grammar.now) }
        ensures { Gathers (meaning grammar.now) (items self.now) rule (member next.old) (member next.new) (length (rhs (meaning grammar.now) rule)) }
    {
        for dot in 0..usize::from(grammar.length(rule)) {
            if self.holds(rule, dot) {
                next.add(grammar.right(rule, dot));
            }
        }
    }

    /// The symbols that come next in an item of the row.
    pub(crate) fn next_symbols(&self, grammar: &Grammar) -> SymbolSet
        ensures { Nexts (meaning grammar.now) (items self.now) (member result) }
    {
        let mut next = SymbolSet::empty();
        for rule in 0..usize::from(grammar.rules()) {
            self.gather(grammar, rule, &mut next);
        }
        next
    }
}
