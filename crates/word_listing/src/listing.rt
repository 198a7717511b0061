//! The words of any feed, one line after another.
ghost use Rattle.std.specs.Fmt.{WritesOnOk};
ghost use Rattle.word_listing.specs.Lines.{word_lines};

use crate::line::{EndLine, WordLine};
use std::fmt;
use words::WordFeed;

/// Writes all words that are coming from a feed, a line for each, and a last line for the end or the refusal.
pub fn list_words<F: WordFeed, W: fmt::Write>(
    feed: &mut F,
    f: &mut fmt::Formatter<W>,
) -> fmt::Result
    ensures { WritesOnOk W.write_str_gives f.old result (word_lines (F.coming feed.old)) f.new }
{
    loop {
        match feed.next_word() {
            Ok(Some(word)) => {
                let line = WordLine(word);
                write!(f, "{line}\n")?;
            }
            Ok(None) => {
                let line = EndLine(None);
                return write!(f, "{line}\n");
            }
            Err(fault) => {
                let line = EndLine(Some(fault));
                return write!(f, "{line}\n");
            }
        }
    }
}
