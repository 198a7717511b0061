//! The text of a recipe as a feed of words.
ghost use Rattle.std.specs.Prelude.{◌≡◌, ◌<◌, ◌≤◌, length};
ghost use Rattle.grammar.specs.Meaning.{sheet, meaning};
ghost use Rattle.words.specs.Faithful.{Faithful};
ghost use Rattle.words.specs.Texts.{said, text_coming};
ghost use Rattle.words.specs.Meanings.{text_feed_coming};
ghost use Rattle.words.specs.Places.{part, Orderly};
ghost use Rattle.words.specs.Refusals.{shown};

use crate::fault::FeedFault;
use crate::feed::WordFeed;
use crate::runs::{run_end, run_start};
use crate::spelled::{amount, are_digits, terminal_of};
use crate::word::Word;
use grammar::Grammar;

/// The words of a text from a place on, by the spellings of a grammar.
#[derive(Drop)]
pub struct TextFeed<'g, 't> {
    grammar: &'g Grammar,
    text: &'t [u8],
    place: usize,
}

/// What the run from a place up to another says.
fn read_run(grammar: &Grammar, text: &[u8], from: usize, to: usize) -> Result<Word, FeedFault>
    requires nonempty { from < to }
    requires within { to ≤ length text.now }
    ensures { shown result ≡ said (sheet grammar.now) (record { from = from; bytes = part text.now from to }) }
{
    let bytes = &text[from..to];
    if are_digits(bytes) {
        if bytes.len() > 5 {
            return Err(FeedFault::LongAmount { from, to });
        }
        return Ok(Word {
            terminal: 0,
            amount: amount(bytes),
            from,
            to,
        });
    }
    let terminal = terminal_of(grammar, bytes).ok_or(FeedFault::UnknownWord { from, to })?;
    Ok(Word {
        terminal,
        amount: 0,
        from,
        to,
    })
}

impl<'g, 't> TextFeed<'g, 't> {
    /// The feed of all words of a text.
    pub fn new(grammar: &'g Grammar, text: &'t [u8]) -> TextFeed<'g, 't>
        ensures coming { text_feed_coming result ≡ text_coming (sheet grammar.now) 0 text.now }
        ensures orderly { Orderly (meaning grammar.now).terminals (length text.now) (text_feed_coming result) }
        ensures faithful { Faithful (sheet grammar.now) text.now (text_feed_coming result) }
    {
        TextFeed {
            grammar,
            text,
            place: 0,
        }
    }
}

impl WordFeed for TextFeed<'_, '_> {
    ghost coming = { text_feed_coming };

    fn next_word(&mut self) -> Result<Option<Word>, FeedFault> {
        let from = run_start(self.text, self.place);
        self.place = from;
        if from == self.text.len() {
            return Ok(None);
        }
        let to = run_end(self.text, from);
        let word = read_run(self.grammar, self.text, from, to)?;
        self.place = to;
        Ok(Some(word))
    }
}
