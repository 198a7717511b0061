//! A fault of a table in plain words: a line on what is wrong and where, the items that it is about, and a line on the rule that is broken.
ghost use Rattle.std.specs.Prelude.{◌≡◌, Some, None, MatchOption};
ghost use Rattle.grammar.specs.Meaning.{sheet as sheet_of, meaning};
ghost use Rattle.tables.specs.Trying.{stands_in};
ghost use Rattle.table_explanation.specs.Explanations.{state_items, wanted_items, explanation, symbol_in, WantedOf};

use crate::lines::{Claimed, FaultLine};
use crate::rule::broken_rule;
use grammar::Grammar;
use rows::Row;
use states::TableFault;
use std::fmt;
use table_text::RowText;
use tables::Finding;

/// A fault of a table sheet, explained from what the sheet says, from the row of the state that the fault is in, and from the row that its
/// step is to lead to.
#[derive(Clone, Copy)]
pub struct TableExplanation<'a> {
    pub grammar: &'a Grammar,
    pub sheet: &'a [u8],
    pub finding: Finding,
    pub wanted: Option<Row>,
}

/// The state that a fault is in.
fn state_in(fault: &TableFault) -> Option<u8>
    ensures { result ≡ stands_in fault.now }
{
    match fault {
        TableFault::StepWhereNone { state, .. }
        | TableFault::StepLacking { state, .. }
        | TableFault::OtherRow { state, .. }
        | TableFault::KnownRow { state, .. }
        | TableFault::MarkWrong { state, .. } => Some(*state),
        _ => None,
    }
}

/// The symbol whose step a fault speaks of.
fn symbol_of(fault: &TableFault) -> Option<u8>
    ensures { result ≡ symbol_in fault.now }
{
    match fault {
        TableFault::StepWhereNone { symbol, .. }
        | TableFault::StepLacking { symbol, .. }
        | TableFault::OtherRow { symbol, .. }
        | TableFault::KnownRow { symbol, .. } => Some(*symbol),
        _ => None,
    }
}

/// The row that the step of a fault is to lead to.
fn wanted_of(grammar: &Grammar, finding: &Finding) -> Option<Row>
    ensures { WantedOf (meaning grammar.now) (symbol_in finding.now.fault) finding.now.row result }
{
    let symbol = symbol_of(&finding.fault)?;
    match &finding.row {
        None => None,
        Some(row) => row.step(grammar, usize::from(symbol)),
    }
}

impl<'a> TableExplanation<'a> {
    /// The explanation of a finding.
    pub fn of(grammar: &'a Grammar, sheet: &'a [u8], finding: Finding) -> TableExplanation<'a>
        ensures grammar { result.grammar.now ≡ grammar.now }
        ensures sheet { result.sheet.now ≡ sheet.now }
        ensures finding { result.finding ≡ finding }
        ensures wanted { WantedOf (meaning grammar.now) (symbol_in finding.fault) finding.row result.wanted }
    {
        let wanted = wanted_of(grammar, &finding);
        TableExplanation {
            grammar,
            sheet,
            finding,
            wanted,
        }
    }
}

/// The items of the state that a fault is in, if both are known.
#[derive(Clone, Copy)]
struct StateItems<'a> {
    grammar: &'a Grammar,
    state: Option<u8>,
    row: &'a Option<Row>,
}

impl fmt::Display for StateItems<'_> {
    ghost output = { λ x. Some (state_items (sheet_of x.grammar.now) x.state x.row.now) };

    fn fmt<W: fmt::Write>(&self, f: &mut fmt::Formatter<W>) -> fmt::Result {
        let grammar = self.grammar;
        let Some(state) = self.state else {
            return Ok(());
        };
        match self.row {
            None => Ok(()),
            Some(row) => {
                let items = RowText { grammar, row };
                write!(f, "The items of state {state}:\n{items}")
            }
        }
    }
}

/// The items of the state that a step is to lead to, if they are known.
#[derive(Clone, Copy)]
struct WantedItems<'a> {
    grammar: &'a Grammar,
    row: &'a Option<Row>,
}

impl fmt::Display for WantedItems<'_> {
    ghost output = { λ x. Some (wanted_items (sheet_of x.grammar.now) x.row.now) };

    fn fmt<W: fmt::Write>(&self, f: &mut fmt::Formatter<W>) -> fmt::Result {
        let grammar = self.grammar;
        match self.row {
            None => Ok(()),
            Some(row) => {
                let items = RowText { grammar, row };
                write!(f, "The items of the state wanted:\n{items}")
            }
        }
    }
}

impl fmt::Display for TableExplanation<'_> {
    ghost output = { λ x. Some (explanation (sheet_of x.grammar.now) x.sheet.now x.finding.fault x.finding.row x.wanted) };

    fn fmt<W: fmt::Write>(&self, f: &mut fmt::Formatter<W>) -> fmt::Result {
        let grammar = self.grammar;
        let sheet = self.sheet;
        let fault = self.finding.fault;
        let line = FaultLine(Claimed { grammar, sheet }, fault);
        let items = StateItems {
            grammar,
            state: state_in(&fault),
            row: &self.finding.row,
        };
        let wanted = WantedItems {
            grammar,
            row: &self.wanted,
        };
        let rule = broken_rule(&fault);
        write!(f, "{line}{items}{wanted}{rule}\n")
    }
}
