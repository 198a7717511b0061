//! What links are made over.
ghost use Rattle.std.specs.Prelude.{◌≡◌, ◌<◌, ◌≤◌};
ghost use Rattle.links.specs.Holding.{most};

use states::StateSource;

/// A source of states, and how many links a table may have over it.
#[derive(Drop)]
pub(crate) struct Over<'a, S: StateSource> {
    pub(crate) source: &'a S,
    pub(crate) limit: usize,
    ghost few: { limit ≤ 4096 },
}

impl<'a, S: StateSource> Over<'a, S> {
    /// A table has room for 4,096 links, whatever the limit.
    pub(crate) fn new(source: &'a S, limit: usize) -> Over<'a, S>
        ensures source { result.source.now ≡ source.now }
        ensures limit { result.limit ≡ most limit }
    {
        Over {
            source,
            limit: limit.min(4096),
        }
    }
}

/// A symbol that links are made by, and what they are made over.
#[derive(Drop)]
pub(crate) struct Symbol<'a, S: StateSource> {
    pub(crate) over: &'a Over<'a, S>,
    pub(crate) x: u8,
}

/// A symbol that is a word.
#[derive(Drop)]
pub(crate) struct Word<'a, S: StateSource> {
    pub(crate) symbol: Symbol<'a, S>,
    ghost terminal: { symbol.x < (S.meaning symbol.over.now.source.now).grammar.terminals },
}
