//! The steps of a state in readable notation.
ghost use Rattle.std.specs.Prelude.{Some};
ghost use Rattle.grammar.specs.Meaning.{sheet};
ghost use Rattle.tables.specs.Meaning.{source};
ghost use Rattle.table_text.specs.States.{step_line, step_lines};

use crate::state::StateText;
use grammar::Grammar;
use inspection::Name;
use states::StateSource;
use std::fmt;

/// A step, as `  by tea to 3`; nothing where there is none.
#[derive(Clone, Copy)]
struct StepLine<'a> {
    grammar: &'a Grammar,
    symbol: u8,
    target: Option<u8>,
}

impl fmt::Display for StepLine<'_> {
    ghost output = { λ x. Some (step_line (sheet x.grammar.now) x.target x.symbol) };

    fn fmt<W: fmt::Write>(&self, f: &mut fmt::Formatter<W>) -> fmt::Result {
        let Some(target) = self.target else {
            return Ok(());
        };
        let name = Name::of(self.grammar, self.symbol);
        writeln!(f, "  by {name} to {target}")
    }
}

/// The steps of a state, a line for each.
#[derive(Clone, Copy)]
pub(crate) struct StepLines<'a>(pub(crate) StateText<'a>);

impl fmt::Display for StepLines<'_> {
    ghost output = { λ x. Some (step_lines (sheet x.0.grammar.now) (source x.0.table.now) x.0.state) };

    fn fmt<W: fmt::Write>(&self, f: &mut fmt::Formatter<W>) -> fmt::Result {
        let StateText {
            grammar,
            table,
            state,
        } = self.0;
        // Not one function for all lists: it would take a closure, and a public one that does would have to ask that it can be called.
        for symbol in 0..grammar.symbols() {
            let target = table.next(state, symbol);
            write!(
                f,
                "{}",
                StepLine {
                    grammar,
                    symbol,
                    target
                }
            )?;
        }
        Ok(())
    }
}
