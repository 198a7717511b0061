//! A set of symbols.
ghost use Rattle.std.specs.Prelude.{◌≡◌, ℕ, false};
ghost use Rattle.rows.specs.Rows.{member};
ghost use Rattle.rows.specs.Changes.{Joins};

/// Bit x is the symbol x. A symbol from 64 on is in no set.
#[derive(Clone, Copy)]
pub struct SymbolSet {
    bits: u64,
}

impl SymbolSet {
    /// The set of no symbols.
    pub fn empty() -> SymbolSet
        ensures { (X : ℕ) → member result X ≡ false }
    {
        SymbolSet { bits: 0 }
    }

    /// Whether the symbol is in the set.
    pub fn has(&self, symbol: usize) -> bool
        ensures { result ≡ member self.now symbol }
    {
        let bits = self.bits;
        symbol < 64 && (bits >> symbol) & 1 == 1
    }

    /// Adds the symbol, if it is below 64.
    pub fn add(&mut self, symbol: u8)
        ensures { Joins (member self.old) symbol (member self.new) }
    {
        if symbol < 64 {
            self.bits |= 1 << symbol;
        }
    }
}
