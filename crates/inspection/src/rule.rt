//! Rules in readable notation.
ghost use Rattle.std.specs.Prelude.{◌-◌, Some};
ghost use Rattle.grammar.specs.Meaning.{sheet};
ghost use Rattle.inspection.specs.Pieces.{each};
ghost use Rattle.inspection.specs.Rules.{right_piece, rule_text, if_rule};

use crate::name::Name;
use grammar::Grammar;
use std::fmt;

/// A rule, as `start -> start and start`, or `part-7 -> (nothing)`.
#[derive(Clone, Copy)]
pub struct RuleText<'a> {
    pub grammar: &'a Grammar,
    pub rule: usize,
}

/// The right symbols of a rule from one place on and up to another, each behind a blank.
#[derive(Clone, Copy)]
pub struct RightSymbols<'a> {
    pub grammar: &'a Grammar,
    pub rule: usize,
    pub from: usize,
    pub to: usize,
}

impl fmt::Display for RightSymbols<'_> {
    ghost output = { λ x. Some (each (right_piece (sheet x.grammar.now) x.rule) x.from (x.to - x.from)) };

    fn fmt<W: fmt::Write>(&self, f: &mut fmt::Formatter<W>) -> fmt::Result {
        // Not one function for all lists: it would take a closure, and a public one that does would have to ask that it can be called.
        for place in self.from..self.to {
            let symbol = Name::of(self.grammar, self.grammar.right(self.rule, place));
            write!(f, " {symbol}")?;
        }
        Ok(())
    }
}

impl fmt::Display for RuleText<'_> {
    ghost output = { λ x. if_rule (sheet x.grammar.now) rule_text x.rule };

    fn fmt<W: fmt::Write>(&self, f: &mut fmt::Formatter<W>) -> fmt::Result {
        let RuleText { grammar, rule } = *self;
        let left = Name::of(grammar, grammar.left(rule));
        let length = usize::from(grammar.length(rule));
        if length == 0 {
            return write!(f, "{left} -> (nothing)");
        }
        let right = RightSymbols {
            grammar,
            rule,
            from: 0,
            to: length,
        };
        write!(f, "{left} ->{right}")
    }
}
