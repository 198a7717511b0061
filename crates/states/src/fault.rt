//! What is wrong with a table sheet, with a grammar that needs too many states, or with the room to write a table.
ghost use Rattle.std.specs.Prelude.{◌≡◌};
ghost use Rattle.states.specs.Refusals.{refusal as told};

use grammar::{Layer, Refusal};

/// The faults of tables of states, in the order in which they are looked for.
#[derive(Clone, Copy, PartialEq, Eq, Debug)]
pub enum TableFault {
    /// Under twelve bytes, or the whole length is not that of the sheet.
    WholeLength,
    /// The number of states is not 1 to 255, or the symbols or the rules are not as many as the grammar's.
    CountRange,
    /// An offset is wrong, or the length is not as counted.
    Offset,
    /// A step byte is no state and not 255, or a mark byte is neither 0 nor 1.
    ByteRange { offset: usize },
    /// A step where none is wanted.
    StepWhereNone { state: u8, symbol: u8 },
    /// No step where one is wanted.
    StepLacking { state: u8, symbol: u8 },
    /// A step to a known state that has another row than the one wanted.
    OtherRow { state: u8, symbol: u8 },
    /// A step to a new state, while a known one has the row wanted.
    KnownRow { state: u8, symbol: u8 },
    /// A done mark that is not the one wanted.
    MarkWrong { state: u8, rule: u8 },
    /// A state that steps do not reach from state 0.
    NeverReached { state: u8 },
    /// The grammar has more than 255 LR(0) item sets.
    TooManyStates,
    /// The room to write the sheet is too short.
    RoomShort { need: usize },
}

impl From<TableFault> for Refusal {
    ghost from_gives = { λ f r. r ≡ told f };

    fn from(fault: TableFault) -> Refusal {
        let (number, first, second) = match fault {
            TableFault::WholeLength => (20, 0, 0),
            TableFault::CountRange => (21, 0, 0),
            TableFault::Offset => (22, 0, 0),
            TableFault::ByteRange { offset } => (23, offset, 0),
            TableFault::StepWhereNone { state, symbol } => (
                24,
                usize::from(state),
                usize::from(symbol),
            ),
            TableFault::StepLacking { state, symbol } => (
                25,
                usize::from(state),
                usize::from(symbol),
            ),
            TableFault::OtherRow { state, symbol } => (26, usize::from(state), usize::from(symbol)),
            TableFault::KnownRow { state, symbol } => (27, usize::from(state), usize::from(symbol)),
            TableFault::MarkWrong { state, rule } => (28, usize::from(state), usize::from(rule)),
            TableFault::NeverReached { state } => (29, usize::from(state), 0),
            TableFault::TooManyStates => (30, 0, 0),
            TableFault::RoomShort { need } => (31, need, 0),
        };
        Refusal {
            number,
            layer: Layer::Table,
            first,
            second,
        }
    }
}

impl TableFault {
    /// The refusal that the fault is shown as.
    pub fn refusal(&self) -> Refusal
        ensures { result ≡ told self.now }
    {
        Refusal::from(*self)
    }
}
