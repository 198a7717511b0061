//! A feed of one of two kinds, so that feeds of both stand in one list.
ghost use Rattle.either.specs.Either.{either};

use crate::fault::FeedFault;
use crate::feed::WordFeed;
use crate::word::Word;
use either::{Either, Left, Right};

impl<L: WordFeed, R: WordFeed> WordFeed for Either<L, R> {
    ghost coming = { either L.coming R.coming };

    fn next_word(&mut self) -> Result<Option<Word>, FeedFault> {
        match self {
            Left(feed) => feed.next_word(),
            Right(feed) => feed.next_word(),
        }
    }
}
