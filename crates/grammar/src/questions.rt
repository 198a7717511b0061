//! What a grammar answers.
ghost use Rattle.std.specs.Prelude.{◌≡◌, ◌+◌, ◌<◌, ◌≤◌, MatchOption};
ghost use Rattle.std.specs.Option.{option_map};
ghost use Rattle.parsing.specs.Grammar.{rule_count};
ghost use Rattle.grammar.specs.Holding.{rewriting, rule_at};
ghost use Rattle.grammar.specs.Lists.{items};
ghost use Rattle.grammar.specs.Meaning.{meaning, sheet};
ghost use Rattle.grammar.specs.Questions.{left_side, right_length, right_symbol, spelled};

use crate::grammar::Grammar;
use crate::rule::Rule;

impl Grammar {
    /// How many terminals there are.
    pub fn terminals(&self) -> u8
        ensures { result ≡ (meaning self.now).terminals }
    {
        self.spellings.count()
    }

    /// How many nonterminals there are.
    pub fn nonterminals(&self) -> u8
        ensures { result ≡ (meaning self.now).nonterminals }
    {
        self.nonterminals
    }

    /// How many symbols there are, terminals and nonterminals together.
    pub fn symbols(&self) -> u8
        ensures value { result ≡ (meaning self.now).terminals + (meaning self.now).nonterminals }
        ensures bound { result ≤ 64 }
    {
        self.terminals() + self.nonterminals
    }

    /// How many rules there are.
    pub fn rules(&self) -> u8
        ensures { result ≡ rule_count (meaning self.now) }
    {
        self.rules.count()
    }

    /// The rule of a number.
    fn rule(&self, rule: usize) -> Option<&Rule>
        ensures { MatchOption result (rule_count (meaning self.now) ≤ rule) (λ p. (rule < rule_count (meaning self.now)) × (rewriting p.now ≡ rule_at (items self.now.rules) rule)) }
    {
        self.rules.as_slice().get(rule)
    }

    // 255 and not none: what a grammar and a source answer outside is laid down.
    /// The left symbol of a rule; 255 where there is no such rule.
    #[tactic(auto, unfolding(parsing::specs::Grammar::lhs, parsing::specs::Grammar::rule))]
    pub fn left(&self, rule: usize) -> u8
        ensures { result ≡ left_side (meaning self.now) rule }
    {
        self.rule(rule).map_or(255, |rule| rule.left)
    }

    /// How many right symbols a rule has; 255 where there is no such rule.
    #[tactic(auto, unfolding(parsing::specs::Grammar::rhs, parsing::specs::Grammar::rule))]
    pub fn length(&self, rule: usize) -> u8
        ensures { result ≡ right_length (meaning self.now) rule }
    {
        self.rule(rule).map_or(255, |rule| rule.right.count())
    }

    /// The right symbol of a rule at a place; 255 where there is none.
    #[tactic(auto, unfolding(parsing::specs::Grammar::rhs, parsing::specs::Grammar::rule))]
    pub fn right(&self, rule: usize, place: usize) -> u8
        ensures { result ≡ right_symbol (meaning self.now) rule place }
    {
        let rule = self.rule(rule);
        let symbol = rule.and_then(|rule| rule.right.as_slice().get(place));
        symbol.copied().unwrap_or(255)
    }

    /// The spelling of a terminal, which is empty for the amount; none where there is no such terminal.
    pub fn spelling(&self, terminal: usize) -> Option<&[u8]>
        ensures { option_map (λ x. x.now) result ≡ spelled (sheet self.now) terminal }
    {
        let spelling = self.spellings.as_slice().get(terminal)?;
        Some(spelling.as_slice())
    }
}
