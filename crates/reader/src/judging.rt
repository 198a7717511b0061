//! Judging the kept words.
ghost use Rattle.std.specs.Prelude.{◌≡◌, true, ◌↔◌};
ghost use Rattle.histories.specs.Calls.{judge as judging};
ghost use Rattle.histories.specs.Doings.{Accepts};
ghost use Rattle.reader.specs.Readings.{Makes};
ghost use Rattle.reader.specs.Replies.{judgement};

use crate::fault::ReadingFault;
use crate::reading::Reading;
use link_growth::Link;
use states::StateSource;

impl<S: StateSource> Reading<S> {
    /// Whether the kept words are a sentence.
    pub fn judge(&self) -> Result<bool, ReadingFault>
        ensures { Makes S.meaning self.now judging (judgement result) self.now }
    {
        let _limit = self.limit()?;
        let first = self.source.first();
        let Some(state) = self.source.next(first, self.source.right(0, 0)) else {
            return Ok(false);
        };
        Ok(
            self.links.has(Link {
                state,
                place: self.words.len() as u8,
                below: first,
                below_place: 0,
            }),
        )
    }
}
