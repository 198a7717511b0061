//! A grammar that keeps all the rules.
ghost use Rattle.std.specs.Prelude.{◌≤◌};
ghost use Rattle.grammar.specs.Holding.{Held};

use crate::few::Few;
use crate::rule::Rule;
use crate::spelling::Spelling;

/// Its rules, and the spelling of each of its terminals. Whatever a grammar is asked, it keeps the rules of the sheet that it was read from.
#[derive(Clone, Copy)]
pub struct Grammar {
    pub(crate) nonterminals: u8,
    pub(crate) rules: Few<Rule, 64>,
    pub(crate) spellings: Few<Spelling, 40>,
    ghost few_nonterminals: { nonterminals ≤ 24 },
    ghost held: { ∥ Held nonterminals rules spellings ∥₁ },
}
