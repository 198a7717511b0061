//! Stepping a row by a symbol.
ghost use Rattle.std.specs.Prelude.{◌≡◌, ℕ, ◌<◌, true, ◌↔◌, length, MatchOption};
ghost use Rattle.parsing.specs.Grammar.{rule_count, rhs};
ghost use Rattle.table_format.specs.ItemSets.{Moved, NoStep, StepTo};
ghost use Rattle.grammar.specs.Meaning.{meaning};
ghost use Rattle.rows.specs.Rows.{items};
ghost use Rattle.rows.specs.Changes.{Sweeps, Kernel};

use crate::row::Row;
use grammar::Grammar;

// No struct of the grammar with the symbol or the rule: the public functions of rows take them one by one.
impl Row {
    /// Adds to `into` the items of one rule that have the symbol next, with the symbol passed.
    fn sweep(&self, grammar: &Grammar, rule: usize, symbol: usize, into: &mut Row)
        requires { rule < rule_count (meaning grammar.now) }
        ensures { Sweeps (meaning grammar.now) (items self.now) symbol rule (items into.old) (items into.new) (length (rhs (meaning grammar.now) rule)) }
    {
        for dot in 0..usize::from(grammar.length(rule)) {
            if self.holds(rule, dot) && usize::from(grammar.right(rule, dot)) == symbol {
                into.add(rule, dot + 1);
            }
        }
    }

    /// The items that have the symbol next, with the symbol passed.
    fn moved(&self, grammar: &Grammar, symbol: usize) -> Row
        ensures { (r d : ℕ) → (items result r d ≡ true) ↔ Moved (meaning grammar.now) (items self.now) symbol r d }
    {
        let mut moved = Row::empty();
        for rule in 0..usize::from(grammar.rules()) {
            self.sweep(grammar, rule, symbol, &mut moved);
        }
        moved
    }

    /// The kernel of the step by a symbol: the items that have the symbol next, with the symbol passed; none where there are none.
    pub fn kernel(&self, grammar: &Grammar, symbol: usize) -> Option<Row>
        ensures { MatchOption result (NoStep (meaning grammar.now) (items self.now) symbol) (λ w. Kernel (meaning grammar.now) (items self.now) symbol (items w)) }
    {
        self.next_symbols(grammar)
            .has(symbol)
            .then(|| self.moved(grammar, symbol))
    }

    /// The step of the row by a symbol: none where the symbol comes next in no item.
    pub fn step(&self, grammar: &Grammar, symbol: usize) -> Option<Row>
        ensures { MatchOption result (NoStep (meaning grammar.now) (items self.now) symbol) (λ w. StepTo (meaning grammar.now) (items self.now) symbol (items w)) }
    {
        let mut row = self.kernel(grammar, symbol)?;
        row.complete(grammar);
        Some(row)
    }
}
