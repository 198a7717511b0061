//! The layout of a table sheet by its counts.
ghost use Rattle.std.specs.Prelude.{◌≡◌, ◌+◌, ◌*◌};
ghost use Rattle.table_format.specs.Sheets.{marks_at, ends_at};

/// For how many states, symbols and rules a sheet is laid out. Behind the header, which has 12 bytes, the steps stand state after state, one
/// for each symbol; behind them the done marks, one for each rule.
#[derive(Clone, Copy, PartialEq, Eq, Debug)]
pub struct Layout {
    pub states: u16,
    pub symbols: u16,
    pub rules: u16,
}

impl Layout {
    /// The offset of the step of a state by a symbol.
    pub fn step_at(&self, state: u8, symbol: u8) -> usize
        ensures { result ≡ 12 + (state * self.now.symbols + symbol) }
    {
        12 + usize::from(state) * usize::from(self.symbols) + usize::from(symbol)
    }

    /// The offset of the done marks.
    pub fn marks_at(&self) -> usize
        ensures { result ≡ marks_at self.now.states self.now.symbols }
    {
        12 + usize::from(self.states) * usize::from(self.symbols)
    }

    /// The offset of the done mark of a state for a rule.
    pub fn mark_at(&self, state: u8, rule: u8) -> usize
        ensures { result ≡ marks_at self.now.states self.now.symbols + (state * self.now.rules + rule) }
    {
        self.marks_at() + usize::from(state) * usize::from(self.rules) + usize::from(rule)
    }

    /// How many bytes the sheet has.
    pub fn sheet_len(&self) -> usize
        ensures { result ≡ ends_at self.now.states self.now.symbols self.now.rules }
    {
        self.marks_at() + usize::from(self.states) * usize::from(self.rules)
    }
}
