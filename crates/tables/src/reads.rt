//! Reading the bytes of a table sheet.
ghost use Rattle.std.specs.Prelude.{◌≡◌, ◌<◌, ◌≢◌, ◌==◌, MatchOption};
ghost use Rattle.table_format.specs.Sheets.{table_of};

use crate::claim::Claim;

impl Claim<'_> {
    /// The step of a state by a symbol: none where the byte is 255.
    pub(crate) fn step(&self, state: u8, symbol: u8) -> Option<u8>
        requires state { state < self.now.header.states }
        requires symbol { symbol < self.now.header.symbols }
        ensures { MatchOption result ((table_of self.now.sheet.now).step state symbol ≡ 255) (λ t. (t ≡ (table_of self.now.sheet.now).step state symbol) × (t ≢ 255)) }
    {
        let byte = self.sheet[self.header.layout().step_at(state, symbol)];
        (byte != 255).then_some(byte)
    }

    /// Whether a state is marked as done for a rule.
    pub(crate) fn done(&self, state: u8, rule: u8) -> bool
        requires state { state < self.now.header.states }
        requires rule { rule < self.now.header.rules }
        ensures { result ≡ ((table_of self.now.sheet.now).mark state rule == 1) }
    {
        self.sheet[self.header.layout().mark_at(state, rule)] == 1
    }
}
