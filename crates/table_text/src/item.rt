//! Items in readable notation.
ghost use Rattle.std.specs.Prelude.{Some};
ghost use Rattle.grammar.specs.Meaning.{sheet};
ghost use Rattle.table_text.specs.Items.{item_text};

use grammar::Grammar;
use inspection::{Name, RightSymbols};
use std::fmt;

/// An item: a rule with a mark where its dot stands, as `start -> start • and start`. A dot past the last symbol is shown behind it, and a
/// symbol of a rule that the grammar does not have as `part-255`.
#[derive(Clone, Copy)]
pub struct ItemText<'a> {
    pub grammar: &'a Grammar,
    pub rule: usize,
    pub dot: usize,
}

impl fmt::Display for ItemText<'_> {
    ghost output = { λ x. Some (item_text (sheet x.grammar.now) x.rule x.dot) };

    fn fmt<W: fmt::Write>(&self, f: &mut fmt::Formatter<W>) -> fmt::Result {
        let ItemText { grammar, rule, dot } = *self;
        let left = Name::of(grammar, grammar.left(rule));
        let length = usize::from(grammar.length(rule));
        let mark = dot.min(length);
        let passed = RightSymbols {
            grammar,
            rule,
            from: 0,
            to: mark,
        };
        let coming = RightSymbols {
            grammar,
            rule,
            from: mark,
            to: length,
        };
        write!(f, "{left} ->{passed} •{coming}")
    }
}
