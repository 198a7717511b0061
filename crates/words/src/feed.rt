//! A word feed, known by its meaning alone.
ghost use Rattle.words.specs.Feeds.{Coming, Handed};

use crate::fault::FeedFault;
use crate::word::Word;

/// A list of coming words, then its end or one fault.
pub trait WordFeed {
    ghost coming: { Self → Coming };

    /// The first coming word, which is dropped; after the last the end or the fault, every time.
    fn next_word(&mut self) -> Result<Option<Word>, FeedFault>
        ensures { Handed (coming self.old) result (coming self.new) };
}
