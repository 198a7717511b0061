//! What the check of a table sheet finds wrong.
use rows::Row;
use states::TableFault;

/// The first fault of a table sheet. Where a step or a mark of a state is wrong, `row` has the items that the state stands for.
#[derive(Clone, Copy)]
pub struct Finding {
    pub fault: TableFault,
    pub row: Option<Row>,
}
