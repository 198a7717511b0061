//! No two terminals are spelled alike.
ghost use Rattle.std.specs.Prelude.{◌≡◌, ℕ, ◌<◌, length, MatchBool};
ghost use Rattle.grammar.specs.Finding.{FirstOf};
ghost use Rattle.grammar.specs.Holding.{words};
ghost use Rattle.grammar.specs.Progress.{Repeated};

use crate::spelling::Spelling;

/// Whether a terminal is spelled like an earlier one.
fn is_repeated(spellings: &[Spelling], terminal: usize) -> bool
    requires { terminal < length spellings.now }
    ensures { MatchBool result (Repeated (words spellings.now) terminal) (Repeated (words spellings.now) terminal → ⊥) }
{
    let spelling = spellings[terminal].as_slice();
    let mut earlier = spellings[..terminal].iter();
    earlier.any(|other| other.as_slice() == spelling)
}

/// The first terminal that is spelled like an earlier one.
pub(crate) fn first_repeated(spellings: &[Spelling]) -> Option<usize>
    ensures { FirstOf 0 (length spellings.now) (Repeated (words spellings.now)) result }
{
    (0..spellings.len()).find(|terminal| is_repeated(spellings, *terminal))
}
