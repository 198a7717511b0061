//! A row of items: what it has, adding to it, and comparing two.
ghost use Rattle.std.specs.Prelude.{◌≡◌, ℕ, ◌<◌, false, ◌&&◌, length, MatchBool, ◌≢◌, nat_lt};
ghost use Rattle.parsing.specs.Grammar.{rule_count, rhs};
ghost use Rattle.grammar.specs.Meaning.{meaning};
ghost use Rattle.rows.specs.Rows.{items};
ghost use Rattle.rows.specs.Changes.{Adds};

use grammar::Grammar;

/// The items of an LR(0) state: bit d of byte r is the item (r, d), the rule r with d symbols passed.
#[derive(Clone, Copy, Default, PartialEq, Eq, Debug)]
pub struct Row {
    items: [u8; 64],
}

impl Row {
    // Beside `default`, whose contract does not tell the items.
    /// The row of no items.
    pub(crate) fn empty() -> Row
        ensures { (r d : ℕ) → items result r d ≡ false }
    {
        Row { items: [0; 64] }
    }

    /// Adds the item (rule, dot); every other item stays.
    pub(crate) fn add(&mut self, rule: usize, dot: usize)
        requires rule { rule < 64 }
        requires dot { dot < 8 }
        ensures { Adds (items self.old) rule dot (items self.new) }
    {
        self.items[rule] |= 1 << dot;
    }

    /// Whether the row has the item (rule, dot).
    pub fn holds(&self, rule: usize, dot: usize) -> bool
        ensures { result ≡ items self.now rule dot }
    {
        if rule >= 64 {
            return false;
        }
        let byte = self.items[rule];
        dot < 8 && (byte >> dot) & 1 == 1
    }

    /// Whether the row has a rule of the grammar with all its right symbols passed.
    pub fn is_done(&self, grammar: &Grammar, rule: usize) -> bool
        ensures { result ≡ (nat_lt rule (rule_count (meaning grammar.now)) && items self.now rule (length (rhs (meaning grammar.now) rule))) }
    {
        rule < usize::from(grammar.rules()) && self.holds(rule, usize::from(grammar.length(rule)))
    }

    // Asked in place of `==`, whose contract tells of the bytes and not of the items.
    /// Whether the rows have the same items: they have the same bytes then.
    pub fn same(&self, other: &Row) -> bool
        ensures items { MatchBool result (items self.now ≡ items other.now) (items self.now ≢ items other.now) }
        ensures value { MatchBool result (self.now ≡ other.now) (self.now ≢ other.now) }
    {
        self == other
    }
}
