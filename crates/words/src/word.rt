//! A word, and the place where it stands.
ghost use Rattle.std.specs.Prelude.{◌≡◌};
ghost use Rattle.std.specs.Option.{option_map};
ghost use Rattle.words.specs.Places.{part_of};

/// A word: a terminal; its amount, which is 0 unless the terminal is 0; and the bytes from which and up to which it stands.
#[derive(Clone, Copy, PartialEq, Eq, Debug)]
pub struct Word {
    pub terminal: u8,
    pub amount: u32,
    pub from: usize,
    pub to: usize,
}

impl Word {
    /// The bytes of the word, as that part of the text that it is a word of; none where the text has no such part.
    pub fn bytes_in<'a>(&self, text: &'a [u8]) -> Option<&'a [u8]>
        ensures { option_map (λ x. x.now) result ≡ part_of text.now self.now.from self.now.to }
    {
        text.get(self.from..self.to)
    }
}
