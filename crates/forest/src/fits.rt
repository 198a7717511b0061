//! Which symbols fit between which places.
ghost use Rattle.std.specs.Prelude.{◌≡◌, ℕ, ◌≤◌, Bool, true};

/// What a gathering asks: whether a symbol fits over the words from one place to another.
pub(crate) trait Fits {
    ghost says: { Self → ℕ → ℕ → ℕ → Bool };

    /// Whether the symbol fits from one place to the other.
    fn fits(&self, symbol: u8, from: u8, to: u8) -> bool
        ensures { result ≡ says self.now symbol from to };

    ghost forward: { (s : Self) (x i j : ℕ) → says s x i j ≡ true → i ≤ j };
}
