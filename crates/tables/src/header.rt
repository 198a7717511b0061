//! The counts that the header of a table sheet tells.
ghost use Rattle.std.specs.Prelude.{◌≡◌};

use table_layout::Layout;

/// How many states, symbols and rules there are.
// The counts that the sheet tells; the check holds the last two to those of the grammar.
#[derive(Clone, Copy)]
pub(crate) struct Header {
    pub(crate) states: u8,
    pub(crate) symbols: u8,
    pub(crate) rules: u8,
}

impl Header {
    /// Where the parts of the sheet stand.
    pub(crate) fn layout(&self) -> Layout
        ensures { result ≡ record { states = self.now.states; symbols = self.now.symbols; rules = self.now.rules } }
    {
        Layout {
            states: u16::from(self.states),
            symbols: u16::from(self.symbols),
            rules: u16::from(self.rules),
        }
    }
}
