//! Checking a table sheet.
ghost use Rattle.std.specs.Prelude.{◌≡◌, None, MatchResult};
ghost use Rattle.grammar.specs.Meaning.{meaning};
ghost use Rattle.tables.specs.Faults.{Refused, Found};
ghost use Rattle.tables.specs.Meaning.{Accepted};

use crate::claim::Claim;
use crate::finding::Finding;
use crate::table::Table;
use arrayvec::ArrayVec;
use grammar::Grammar;
use states::TableFault;

impl From<TableFault> for Finding {
    ghost from_gives = { λ f e. e ≡ record { fault = f; row = None } };

    fn from(fault: TableFault) -> Finding {
        Finding { fault, row: None }
    }
}

impl Table {
    /// The table that a sheet says for a grammar, or the first fault of the sheet and the row of the state that it is in.
    pub fn examine(grammar: &Grammar, sheet: &[u8]) -> Result<Table, Finding>
        ensures { MatchResult result (λ t. Accepted grammar.now sheet.now t) (λ e. Found (meaning grammar.now) sheet.now e) }
    {
        let claim = Claim::check(grammar, sheet)?;
        let known = claim.walk()?;
        if let Some(state) = known.unreached(claim.header.states) {
            return Err(TableFault::NeverReached { state }.into());
        }
        Ok(Table {
            grammar: *grammar,
            sheet: ArrayVec::try_from(sheet).unwrap(),
            header: claim.header,
            rows: known.rows(),
        })
    }

    /// The table that a sheet says for a grammar, or the first fault of the sheet.
    pub fn check(grammar: &Grammar, sheet: &[u8]) -> Result<Table, TableFault>
        ensures { MatchResult result (λ t. Accepted grammar.now sheet.now t) (λ f. Refused (meaning grammar.now) sheet.now f) }
    {
        Table::examine(grammar, sheet).map_err(|finding| finding.fault)
    }
}
