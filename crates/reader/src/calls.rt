//! Opening a reading, taking a word more and going back.
ghost use Rattle.std.specs.Prelude.{◌≡◌, Some, None, MatchBool, MatchResult};
ghost use Rattle.histories.specs.Calls.{open_with, take_word, back_to};
ghost use Rattle.histories.specs.Doings.{Limit};
ghost use Rattle.reader.specs.declared.fault.ReadingFault.TheVariants.{Closed};
ghost use Rattle.reader.specs.Readings.{Begins, Makes};
ghost use Rattle.reader.specs.Replies.{made};

use crate::fault::ReadingFault;
use crate::reading::Reading;
use arrayvec::ArrayVec;
use links::Links;
use states::StateSource;

/// Whether a reading may have this limit of links.
fn is_limit(limit: usize) -> bool
    ensures { MatchBool result (Limit limit) (Limit limit → ⊥) }
{
    (1..=4096).contains(&limit)
}

impl<S: StateSource> Reading<S> {
    /// A reading over a source of states. It is closed.
    pub fn new(source: S) -> Reading<S>
        ensures { Begins source result }
    {
        Reading {
            source,
            links: Links::new(),
            words: ArrayVec::new(),
            limit: None,
        }
    }

    /// The limit of links, unless the reading is closed.
    pub(crate) fn limit(&self) -> Result<usize, ReadingFault>
        ensures { MatchResult result (λ n. self.now.limit ≡ Some n) (λ e. (e ≡ Closed) × (self.now.limit ≡ None)) }
    {
        self.limit.ok_or(ReadingFault::Closed)
    }

    /// Opens the reading with a limit of links, and forgets all words.
    pub fn open(&mut self, limit: usize) -> Result<(), ReadingFault>
        ensures { Makes S.meaning self.old (open_with limit) (made result) self.new }
    {
        if !is_limit(limit) {
            return Err(ReadingFault::LimitRange);
        }
        self.links
            .open(&self.source, limit)
            .map_err(|_| ReadingFault::LimitTooLow)?;
        self.words.clear();
        self.limit = Some(limit);
        Ok(())
    }

    /// Takes one word more.
    pub fn take(&mut self, terminal: usize) -> Result<(), ReadingFault>
        ensures { Makes S.meaning self.old (take_word terminal) (made result) self.new }
    {
        let limit = self.limit()?;
        let kept = self.words.len();
        self.links
            .take(&self.source, terminal, limit)
            .map_err(|fault| ReadingFault::Take {
                fault,
                kept,
                terminal,
            })?;
        self.words.push(terminal as u8);
        Ok(())
    }

    /// Goes back to the first of the kept words.
    pub fn back(&mut self, words: usize) -> Result<(), ReadingFault>
        ensures { Makes S.meaning self.old (back_to words) (made result) self.new }
    {
        let _limit = self.limit()?;
        let kept = self.words.len();
        if words > kept {
            return Err(ReadingFault::BackBeyond { words, kept });
        }
        self.links.back(words);
        self.words.truncate(words);
        Ok(())
    }
}
