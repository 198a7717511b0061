//! A part of a rule over the words between two places.
ghost use Rattle.std.specs.Prelude.{◌≡◌, ◌≤◌, true};
ghost use Rattle.forest.specs.Marks.{goes, Marked, Added, Begins, Ends};

use crate::fits::Fits;

/// A part of a rule over the words from i to j: its symbol, and the marks of the places where it may end.
#[derive(Drop)]
pub(crate) struct Part<'a, 'b, F: Fits> {
    pub(crate) spans: &'a F,
    pub(crate) symbol: u8,
    pub(crate) next: &'b [bool; 256],
    pub(crate) i: u8,
    pub(crate) j: u8,
}

impl<F: Fits> Part<'_, '_, F> {
    /// Whether the part fits from a to b, a place where it may end.
    pub(crate) fn goes(&self, a: u8, b: u8) -> bool
        ensures { result ≡ goes (F.Fits.says self.now.spans.now self.now.symbol) self.now.next.now a b }
    {
        self.next[usize::from(b)] && self.spans.fits(self.symbol, a, b)
    }

    // By place, here and below, not by `enumerate`: a place is a byte, and the spans are asked about it as one.
    /// Marks the places from i on from which the part fits to b.
    fn mark_begins(&self, b: u8, row: &mut [bool; 256])
        ensures { Added (λ a. (self.now.i ≤ a) × (F.Fits.says self.now.spans.now self.now.symbol a b ≡ true)) row.old row.new }
    {
        for a in self.i..=b {
            if self.spans.fits(self.symbol, a, b) {
                row[usize::from(a)] = true;
            }
        }
    }

    /// The places from i on from which the part goes to a place up to j.
    pub(crate) fn begins(&self) -> [bool; 256]
        ensures { Begins (F.Fits.says self.now.spans.now self.now.symbol) self.now.i self.now.j self.now.next.now result }
    {
        let mut row = [false; 256];
        for b in self.i..=self.j {
            if self.next[usize::from(b)] {
                self.mark_begins(b, &mut row);
            }
        }
        row
    }

    /// Marks the places up to j to which the part goes from a.
    fn mark_ends(&self, a: u8, row: &mut [bool; 256])
        ensures { Added (λ b. (b ≤ self.now.j) × (F.Fits.says self.now.spans.now self.now.symbol a b ≡ true) × Marked self.now.next.now b) row.old row.new }
    {
        for b in a..=self.j {
            if self.goes(a, b) {
                row[usize::from(b)] = true;
            }
        }
    }

    // Not one function with `begins`: that one goes over the places where the part may end, this one over those where it may begin, and each
    // asks of the marked places alone.
    /// The places up to j to which the part goes from a marked place.
    pub(crate) fn ends(&self, before: &[bool; 256]) -> [bool; 256]
        ensures { Ends (F.Fits.says self.now.spans.now self.now.symbol) self.now.i self.now.j before.now self.now.next.now result }
    {
        let mut row = [false; 256];
        for a in self.i..=self.j {
            if before[usize::from(a)] {
                self.mark_ends(a, &mut row);
            }
        }
        row
    }
}
