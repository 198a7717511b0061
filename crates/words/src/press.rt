//! One press of a key.
ghost use Rattle.std.specs.Prelude.{◌≡◌};
ghost use Rattle.words.specs.Presses.{press_of};

/// What the bytes of a record begin with.
#[derive(Clone, Copy)]
pub(crate) enum Press {
    /// The amount key, with its two bytes.
    Amount(u8, u8),
    /// The amount key, without them.
    Cut,
    /// The key that ends the record, or no key.
    End,
    /// Any other key.
    Key(u8),
}

impl Press {
    /// The first press of these bytes.
    pub(crate) fn first(keys: &[u8]) -> Press
        ensures { result ≡ press_of keys.now }
    {
        match keys {
            [0, hi, lo, ..] => Press::Amount(*hi, *lo),
            [0, ..] => Press::Cut,
            [255, ..] | [] => Press::End,
            [t, ..] => Press::Key(*t),
        }
    }
}
