//! A record of pressed keys as a feed of words.
ghost use Rattle.std.specs.Prelude.{◌≡◌, length};
ghost use Rattle.grammar.specs.Meaning.{meaning};
ghost use Rattle.words.specs.Keys.{key_coming};
ghost use Rattle.words.specs.Meanings.{key_feed_coming};
ghost use Rattle.words.specs.Places.{Orderly};
ghost use Rattle.words.specs.Pressed.{Recorded};

use crate::fault::FeedFault;
use crate::feed::WordFeed;
use crate::keys::KeyFeed;
use crate::press::Press;
use crate::word::Word;
use grammar::Grammar;

impl<'a> KeyFeed<'a> {
    /// The feed of all words of a record, by the terminals of a grammar.
    pub fn new(grammar: &Grammar, keys: &'a [u8]) -> KeyFeed<'a>
        ensures coming { key_feed_coming result ≡ key_coming (meaning grammar.now).terminals 0 keys.now }
        ensures recorded { Recorded (meaning grammar.now).terminals keys.now (key_feed_coming result) }
        ensures orderly { Orderly (meaning grammar.now).terminals (length keys.now) (key_feed_coming result) }
    {
        KeyFeed {
            terminals: grammar.terminals(),
            keys,
            place: 0,
        }
    }
}

impl WordFeed for KeyFeed<'_> {
    ghost coming = { key_feed_coming };

    fn next_word(&mut self) -> Result<Option<Word>, FeedFault> {
        let from = self.place;
        let word = match Press::first(&self.keys[from..]) {
            Press::Amount(hi, lo) => Word {
                terminal: 0,
                amount: u32::from(u16::from_be_bytes([hi, lo])),
                from,
                to: from + 3,
            },
            Press::Cut => return Err(FeedFault::CutAmount {
                from,
                to: self.keys.len(),
            }),
            Press::End => return Ok(None),
            Press::Key(terminal) => {
                if terminal >= self.terminals {
                    return Err(FeedFault::UnknownKey { from, to: from + 1 });
                }
                Word {
                    terminal,
                    amount: 0,
                    from,
                    to: from + 1,
                }
            }
        };
        self.place = word.to;
        Ok(Some(word))
    }
}
