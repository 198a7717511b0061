//! The rule that a fault breaks.
ghost use Rattle.std.specs.Prelude.{◌≡◌};
ghost use Rattle.table_explanation.specs.Explanations.{broken};

use states::TableFault;

/// The rule that the fault breaks.
pub(crate) fn broken_rule(fault: &TableFault) -> &'static str
    ensures { result.now ≡ broken fault.now }
{
    match fault {
        TableFault::WholeLength =>
            "A header has 12 bytes, and its first number is the length of the whole sheet.",
        TableFault::CountRange =>
            "A table has 1 to 255 states, and as many symbols and rules as its grammar.",
        TableFault::Offset => {
            "The steps begin at byte 12, one for each state and symbol; the done marks follow them, one for each state and rule, and end the sheet."
        }
        TableFault::ByteRange { .. } =>
            "A step is a state, or 255 where there is none. A done mark is 0 or 1.",
        TableFault::StepWhereNone { .. } | TableFault::StepLacking { .. } => {
            "A state has a step by each symbol that comes next in its items, and by no other."
        }
        TableFault::OtherRow { .. } => {
            "A step by a symbol leads to the state of the items in which the symbol is passed, completed."
        }
        TableFault::KnownRow { .. } => "No two states have the same items.",
        TableFault::MarkWrong { .. } => {
            "A done mark is 1 where the state has an item with the rule wholly passed, and 0 elsewhere."
        }
        TableFault::NeverReached { .. } => "Every state is reached from state 0 by steps.",
        TableFault::TooManyStates => "A table has 1 to 255 states, one for each item set.",
        TableFault::RoomShort { .. } => "A sheet is written whole or not at all.",
    }
}
