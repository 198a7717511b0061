//! All that a grammar sheet says, a line for each symbol and each rule.
ghost use Rattle.std.specs.Prelude.{◌-◌, Some};
ghost use Rattle.grammar.specs.Meaning.{sheet};
ghost use Rattle.inspection.specs.Listings.{lines, symbol_line, rule_line, lines_of_rules, listing};
ghost use Rattle.inspection.specs.Rules.{if_rule};

use crate::name::Name;
use crate::rule::RuleText;
use grammar::Grammar;
use std::fmt;

/// A symbol with its number, as `  1  tea`.
#[derive(Clone, Copy)]
struct SymbolLine<'a> {
    grammar: &'a Grammar,
    symbol: u8,
}

impl fmt::Display for SymbolLine<'_> {
    ghost output = { λ x. Some (symbol_line (sheet x.grammar.now) x.symbol) };

    fn fmt<W: fmt::Write>(&self, f: &mut fmt::Formatter<W>) -> fmt::Result {
        let symbol = self.symbol;
        let name = Name::of(self.grammar, symbol);
        write!(f, "{symbol:>3}  {name}")
    }
}

/// A rule with its number, as `  2  start -> start and start`.
#[derive(Clone, Copy)]
pub struct RuleLine<'a> {
    pub grammar: &'a Grammar,
    pub rule: usize,
}

impl fmt::Display for RuleLine<'_> {
    ghost output = { λ x. if_rule (sheet x.grammar.now) rule_line x.rule };

    fn fmt<W: fmt::Write>(&self, f: &mut fmt::Formatter<W>) -> fmt::Result {
        let RuleLine { grammar, rule } = *self;
        let text = RuleText { grammar, rule };
        write!(f, "{rule:>3}  {text}")
    }
}

/// The symbols from one on and up to another, a line for each.
#[derive(Clone, Copy)]
struct SymbolLines<'a> {
    grammar: &'a Grammar,
    from: u8,
    to: u8,
}

impl fmt::Display for SymbolLines<'_> {
    ghost output = { λ x. Some (lines (symbol_line (sheet x.grammar.now)) x.from (x.to - x.from)) };

    fn fmt<W: fmt::Write>(&self, f: &mut fmt::Formatter<W>) -> fmt::Result {
        let grammar = self.grammar;
        // Not one function for all lists: it would take a closure, and a public one that does would have to ask that it can be called.
        for symbol in self.from..self.to {
            writeln!(f, "{}", SymbolLine { grammar, symbol })?;
        }
        Ok(())
    }
}

/// The rules of a grammar, a line for each.
#[derive(Clone, Copy)]
struct RuleLines<'a> {
    grammar: &'a Grammar,
}

impl fmt::Display for RuleLines<'_> {
    ghost output = { λ x. Some (lines_of_rules (sheet x.grammar.now)) };

    fn fmt<W: fmt::Write>(&self, f: &mut fmt::Formatter<W>) -> fmt::Result {
        let grammar = self.grammar;
        for rule in 0..usize::from(grammar.rules()) {
            writeln!(f, "{}", RuleLine { grammar, rule })?;
        }
        Ok(())
    }
}

/// The counts, the symbols and the rules of a grammar.
#[derive(Clone, Copy)]
pub struct Listing<'a> {
    pub grammar: &'a Grammar,
}

impl fmt::Display for Listing<'_> {
    ghost output = { λ x. Some (listing (sheet x.grammar.now)) };

    fn fmt<W: fmt::Write>(&self, f: &mut fmt::Formatter<W>) -> fmt::Result {
        let grammar = self.grammar;
        let terminals = grammar.terminals();
        let nonterminals = grammar.nonterminals();
        let rules = grammar.rules();
        let terminal_lines = SymbolLines {
            grammar,
            from: 0,
            to: terminals,
        };
        let nonterminal_lines = SymbolLines {
            grammar,
            from: terminals,
            to: grammar.symbols(),
        };
        let rule_lines = RuleLines { grammar };
        write!(
            f,
            "terminals: {terminals}\n{terminal_lines}nonterminals: {nonterminals}\n{nonterminal_lines}rules: {rules}\n{rule_lines}"
        )
    }
}
