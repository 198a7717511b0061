//! Reading a feed through.
ghost use Rattle.std.specs.Prelude.{◌≡◌};
ghost use Rattle.histories.specs.Calls.{read_through as reading_through, and_feed};
ghost use Rattle.reader.specs.Readings.{Makes, TakesFed};
ghost use Rattle.reader.specs.Replies.{through};

use crate::fault::{ReadingFault, ThroughFault, WordRefused};
use crate::reading::Reading;
use states::StateSource;
use words::{Word, WordFeed};

impl<S: StateSource> Reading<S> {
    /// Takes one word of a feed; a refusal has the bytes of the word with it.
    fn take_word(&mut self, word: Word) -> Result<(), WordRefused>
        ensures { TakesFed S.meaning self.old word result self.new }
    {
        self.take(usize::from(word.terminal))
            .map_err(|fault| WordRefused {
                fault,
                from: word.from,
                to: word.to,
            })
    }

    /// Takes the words of a feed one by one, and then judges. At a refusal it stops, and earlier words stay kept.
    pub fn read_through<F: WordFeed>(&mut self, feed: &mut F) -> Result<bool, ThroughFault>
        ensures { Makes S.meaning self.old (reading_through (F.coming feed.old)) (and_feed (through result) (F.coming feed.new)) self.new }
    {
        let _limit = self.limit()?;
        while let Some(word) = feed.next_word()? {
            self.take_word(word)?;
        }
        Ok(self.judge()?)
    }
}
