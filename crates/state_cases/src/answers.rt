//! What is answered to a table sheet.
use grammar::Grammar;
use states::TableFault;
use tables::Table;

/// A refusal with this number, at these places.
#[derive(Clone, Copy, PartialEq, Eq, Debug)]
pub struct Refused(pub u8, pub usize, pub usize);

impl From<TableFault> for Refused {
    fn from(fault: TableFault) -> Refused {
        let refusal = fault.refusal();
        Refused(refusal.number, refusal.first, refusal.second)
    }
}

/// The answer to a table sheet for a grammar.
pub fn answer(grammar: &Grammar, sheet: &[u8]) -> Result<(), Refused> {
    Table::check(grammar, sheet)?;
    Ok(())
}
