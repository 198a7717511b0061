//! The table, and the look-up.
ghost use Rattle.std.specs.Prelude.{◌≡◌, ℕ, false};
ghost use Rattle.forest.specs.Tables.{told, Joined, Grown, One};
ghost use Rattle.forest.specs.TableLaws.{told_parts};

use crate::fits::Fits;
use rows::SymbolSet;

/// For each two places the symbols that fit from the one to the other.
#[derive(Drop)]
pub(crate) struct SpanTable {
    cells: [[SymbolSet; 256]; 256],
}

/// Adds the symbol, if it is below 64, to the set at a place of the row.
fn add_at(row: &mut [SymbolSet; 256], symbol: u8, place: u8)
    ensures { Joined symbol place row.old row.new }
{
    row[usize::from(place)].add(symbol);
}

impl SpanTable {
    /// The table in which nothing fits.
    pub(crate) fn empty() -> SpanTable
        ensures { (x i j : ℕ) → told result.cells x i j ≡ false }
    {
        let none = SymbolSet::empty();
        SpanTable {
            cells: [[none; 256]; 256],
        }
    }

    /// Lets the symbol fit from one place to the other, if it is below 64 and the places do not fall.
    pub(crate) fn add(&mut self, symbol: u8, from: u8, to: u8)
        ensures { Grown (One symbol from to) (told self.old.cells) (told self.new.cells) }
    {
        add_at(&mut self.cells[usize::from(from)], symbol, to);
    }
}

impl Fits for SpanTable {
    ghost says = { λ t. told t.cells };

    ghost forward = { λ t x i j h. (told_parts t.cells x i j h).1 };

    fn fits(&self, symbol: u8, from: u8, to: u8) -> bool {
        from <= to && self.cells[usize::from(from)][usize::from(to)].has(usize::from(symbol))
    }
}
