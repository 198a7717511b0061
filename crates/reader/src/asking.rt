//! What a reading is asked. Questions change nothing.
ghost use Rattle.std.specs.Prelude.{◌≡◌};
ghost use Rattle.histories.specs.Questions.{HasLink, LinkCount, word_count};
ghost use Rattle.reader.specs.Readings.{held};

use crate::reading::Reading;
use link_growth::Link;
use states::StateSource;

impl<S: StateSource> Reading<S> {
    /// Whether a link of the kept words is there; no while closed.
    pub fn link(&self, link: Link) -> bool
        ensures { HasLink (S.meaning self.now.source) (held self.now) link result }
    {
        self.links.has(link)
    }

    /// How many links the kept words have; 0 while closed.
    pub fn count(&self) -> usize
        ensures { LinkCount (S.meaning self.now.source) (held self.now) result }
    {
        self.links.count()
    }

    /// How many words are kept; 0 while closed.
    pub fn words(&self) -> usize
        ensures { result ≡ word_count (held self.now) }
    {
        self.words.len()
    }
}
