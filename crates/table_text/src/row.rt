//! Rows in readable notation.
ghost use Rattle.std.specs.Prelude.{Some};
ghost use Rattle.grammar.specs.Meaning.{sheet};
ghost use Rattle.rows.specs.Rows.{items};
ghost use Rattle.table_text.specs.Items.{item_line, rule_items, row_text};

use crate::item::ItemText;
use grammar::Grammar;
use rows::Row;
use std::fmt;

/// The items of a row, a line for each.
#[derive(Clone, Copy)]
pub struct RowText<'a> {
    pub grammar: &'a Grammar,
    pub row: &'a Row,
}

/// The line of an item, if the row has it.
#[derive(Clone, Copy)]
struct ItemLine<'a> {
    row: &'a Row,
    item: ItemText<'a>,
}

impl fmt::Display for ItemLine<'_> {
    ghost output = { λ x. Some (item_line (sheet x.item.grammar.now) (items x.row.now) x.item.rule x.item.dot) };

    fn fmt<W: fmt::Write>(&self, f: &mut fmt::Formatter<W>) -> fmt::Result {
        let item = self.item;
        if self.row.holds(item.rule, item.dot) {
            writeln!(f, "  {item}")
        } else {
            Ok(())
        }
    }
}

/// The items of a row that are of one rule, a line for each.
#[derive(Clone, Copy)]
struct RuleItems<'a> {
    text: RowText<'a>,
    rule: usize,
}

impl fmt::Display for RuleItems<'_> {
    ghost output = { λ x. Some (rule_items (sheet x.text.grammar.now) (items x.text.row.now) x.rule) };

    fn fmt<W: fmt::Write>(&self, f: &mut fmt::Formatter<W>) -> fmt::Result {
        let RuleItems { text, rule } = *self;
        let RowText { grammar, row } = text;
        // Not one function for all lists: it would take a closure, and a public one that does would have to ask that it can be called.
        for dot in 0..=usize::from(grammar.length(rule)) {
            let item = ItemText { grammar, rule, dot };
            write!(f, "{}", ItemLine { row, item })?;
        }
        Ok(())
    }
}

impl fmt::Display for RowText<'_> {
    ghost output = { λ x. Some (row_text (sheet x.grammar.now) (items x.row.now)) };

    fn fmt<W: fmt::Write>(&self, f: &mut fmt::Formatter<W>) -> fmt::Result {
        let text = *self;
        for rule in 0..usize::from(text.grammar.rules()) {
            write!(f, "{}", RuleItems { text, rule })?;
        }
        Ok(())
    }
}
