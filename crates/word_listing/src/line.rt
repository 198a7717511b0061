//! A word, and the end of a feed, each in one line.
ghost use Rattle.std.specs.Prelude.{Some};
ghost use Rattle.std.specs.Option.{option_map};
ghost use Rattle.words.specs.Refusals.{refusal};
ghost use Rattle.word_listing.specs.Lines.{word_text, ending_text};

use std::fmt;
use words::{FeedFault, Word};

/// The terminal, the amount and the places of a word, as `word 1 amount 0 bytes 2 5`.
#[derive(Clone, Copy)]
pub struct WordLine(pub Word);

impl fmt::Display for WordLine {
    ghost output = { λ line. Some (word_text line.0) };

    fn fmt<W: fmt::Write>(&self, f: &mut fmt::Formatter<W>) -> fmt::Result {
        let Word {
            terminal,
            amount,
            from,
            to,
        } = self.0;
        write!(f, "word {terminal} amount {amount} bytes {from} {to}")
    }
}

/// The end of a feed, as `end`, or the refusal of its fault.
#[derive(Clone, Copy)]
pub struct EndLine(pub Option<FeedFault>);

impl fmt::Display for EndLine {
    ghost output = { λ line. Some (ending_text (option_map refusal line.0)) };

    fn fmt<W: fmt::Write>(&self, f: &mut fmt::Formatter<W>) -> fmt::Result {
        match self.0 {
            None => write!(f, "end"),
            Some(fault) => {
                let refusal = fault.refusal();
                write!(f, "{refusal}")
            }
        }
    }
}
