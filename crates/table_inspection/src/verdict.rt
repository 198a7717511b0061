//! The verdict on a table sheet for a grammar: the table that it says, or why it is refused.
ghost use Rattle.std.specs.Prelude.{Some};
ghost use Rattle.grammar.specs.Meaning.{sheet as sheet_of};
ghost use Rattle.table_inspection.specs.Reports.{verdict_text, Supplied};

use grammar::Grammar;
use std::fmt;
use table_explanation::TableExplanation;
use table_text::TableText;
use tables::Table;

/// A table that passes, how its sheet came about, and how many bytes that has; or the explanation of a fault.
#[derive(Drop)]
pub enum TableVerdict<'a> {
    Passing {
        grammar: &'a Grammar,
        table: Table,
        how: &'a str,
        size: usize,
    },
    Refused(TableExplanation<'a>),
}

impl<'a> TableVerdict<'a> {
    /// The verdict on a sheet that was supplied.
    pub fn supplied(grammar: &'a Grammar, sheet: &'a [u8]) -> TableVerdict<'a>
        ensures { Supplied (sheet_of grammar.now) sheet.now (verdict_text result) }
    {
        match Table::examine(grammar, sheet) {
            Ok(table) => TableVerdict::Passing {
                grammar,
                table,
                how: "supplied",
                size: sheet.len(),
            },
            Err(finding) => TableVerdict::Refused(TableExplanation::of(grammar, sheet, finding)),
        }
    }
}

impl fmt::Display for TableVerdict<'_> {
    ghost output = { λ verdict. Some (verdict_text verdict) };

    fn fmt<W: fmt::Write>(&self, f: &mut fmt::Formatter<W>) -> fmt::Result {
        match self {
            TableVerdict::Passing {
                grammar,
                table,
                how,
                size,
            } => {
                let listing = TableText { grammar, table };
                write!(f, "{listing}{how}: {size} bytes, they pass the check\n")
            }
            TableVerdict::Refused(explanation) => {
                let refusal = explanation.finding.fault.refusal();
                write!(f, "{refusal}\n{explanation}")
            }
        }
    }
}
