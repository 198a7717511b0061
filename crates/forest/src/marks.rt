//! Rows of marked places.
ghost use Rattle.std.specs.Prelude.{◌≡◌, true, false, replicate, slice_set};

/// A row that marks one place alone.
pub(crate) fn one_mark(place: u8) -> [bool; 256]
    ensures { result ≡ slice_set (replicate 256 false) place true }
{
    let mut row = [false; 256];
    row[usize::from(place)] = true;
    row
}
