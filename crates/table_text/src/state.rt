//! States and tables in readable notation.
ghost use Rattle.std.specs.Prelude.{Some};
ghost use Rattle.grammar.specs.Meaning.{sheet};
ghost use Rattle.tables.specs.Meaning.{source};
ghost use Rattle.table_text.specs.States.{state_part, state_texts, text_of_table};

use crate::row::RowText;
use crate::steps::StepLines;
use grammar::Grammar;
use states::StateSource;
use std::fmt;
use tables::Table;

/// A state of a table: its number, its items and its steps, a line for each; nothing where there is no such state.
#[derive(Clone, Copy)]
pub struct StateText<'a> {
    pub grammar: &'a Grammar,
    pub table: &'a Table,
    pub state: u8,
}

impl fmt::Display for StateText<'_> {
    ghost output = { λ x. Some (state_part (sheet x.grammar.now) (source x.table.now) x.state) };

    fn fmt<W: fmt::Write>(&self, f: &mut fmt::Formatter<W>) -> fmt::Result {
        let StateText {
            grammar,
            table,
            state,
        } = *self;
        let Some(row) = table.row(state) else {
            return Ok(());
        };
        let items = RowText { grammar, row: &row };
        let steps = StepLines(*self);
        write!(f, "state {state}\n{items}{steps}")
    }
}

/// The states of a table.
#[derive(Clone, Copy)]
struct StateTexts<'a>(TableText<'a>);

impl fmt::Display for StateTexts<'_> {
    ghost output = { λ x. Some (state_texts (sheet x.0.grammar.now) (source x.0.table.now)) };

    fn fmt<W: fmt::Write>(&self, f: &mut fmt::Formatter<W>) -> fmt::Result {
        let TableText { grammar, table } = self.0;
        // Not one function for all lists: it would take a closure, and a public one that does would have to ask that it can be called.
        for state in 0..table.states() {
            write!(
                f,
                "{}",
                StateText {
                    grammar,
                    table,
                    state
                }
            )?;
        }
        Ok(())
    }
}

/// A table: how many states it has, and each of them. The grammar is the one that it is for.
#[derive(Clone, Copy)]
pub struct TableText<'a> {
    pub grammar: &'a Grammar,
    pub table: &'a Table,
}

impl fmt::Display for TableText<'_> {
    ghost output = { λ x. Some (text_of_table (sheet x.grammar.now) (source x.table.now)) };

    fn fmt<W: fmt::Write>(&self, f: &mut fmt::Formatter<W>) -> fmt::Result {
        let count = self.table.states();
        let states = StateTexts(*self);
        write!(f, "states: {count}\n{states}")
    }
}
