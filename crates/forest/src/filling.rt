//! Filling the table from words and links.
ghost use Rattle.std.specs.Prelude.{◌≤◌, length};
ghost use Rattle.forest.specs.Tables.{told, Grown, OfWord, OfLink, OfLinks};

use crate::span_table::SpanTable;
use link_growth::Link;
use states::StateSource;

impl SpanTable {
    /// Lets each terminal fit over the word that it is.
    pub(crate) fn add_words<S: StateSource>(&mut self, source: &S, words: &[u8])
        requires { length words.now ≤ 254 }
        ensures { Grown (OfWord (S.StateSource.meaning source.now).grammar words.now (length words.now)) (told self.old.cells) (told self.new.cells) }
    {
        let terminals = source.terminals();
        for (i, word) in words.iter().enumerate() {
            if *word < terminals {
                self.add(*word, i as u8, i as u8 + 1);
            }
        }
    }

    /// Lets each nonterminal by which a link enters its upper state fit over the words between its places.
    fn add_link<S: StateSource>(&mut self, source: &S, link: Link)
        ensures { Grown (OfLink (S.StateSource.meaning source.now) link) (told self.old.cells) (told self.new.cells) }
    {
        let first = source.terminals();
        for x in first..first + source.nonterminals() {
            if source.next(link.below, x) == Some(link.state) {
                self.add(x, link.below_place, link.place);
            }
        }
    }

    /// Lets each nonterminal fit over the words that it spans by some link.
    pub(crate) fn add_links<S: StateSource>(&mut self, source: &S, links: &[Link])
        ensures { Grown (OfLinks (S.StateSource.meaning source.now) links.now (length links.now)) (told self.old.cells) (told self.new.cells) }
    {
        for link in links {
            self.add_link(source, *link);
        }
    }
}
