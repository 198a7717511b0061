//! The forest of a sentence.
ghost use Rattle.std.specs.Prelude.{◌≡◌, ◌≤◌, take};

use reader::Counts;
use records::Alternative;

/// How many alternatives there is room for.
pub(crate) const ALTERNATIVES: usize = 2048;

// Not an `ArrayVec`: its `truncate` asks for a `Default`, which an alternative does not have.
/// The forest of a sentence: how many nodes and alternatives there are, and the alternatives, in front of a list.
#[derive(Clone, Copy)]
pub struct Forest {
    pub counts: Counts,
    pub list: [Alternative; ALTERNATIVES],
    ghost within: { counts.alternatives ≤ 2048 },
}

impl Forest {
    /// All alternatives.
    pub fn alternatives(&self) -> &[Alternative]
        ensures { result.now ≡ take self.now.counts.alternatives self.now.list }
    {
        &self.list[0..self.counts.alternatives]
    }
}
