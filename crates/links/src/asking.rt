//! What a table of links is asked.
ghost use Rattle.std.specs.Prelude.{◌≡◌, length};
ghost use Rattle.link_growth.specs.Entries.{Mem, Once};
ghost use Rattle.links.specs.Placing.{at_place, Rising};
ghost use Rattle.links.specs.Holding.{links_of, place_of, Tells};

use crate::links::Links;
use link_growth::Link;

impl Links {
    /// How many links there are.
    pub fn count(&self) -> usize
        ensures { result ≡ length (links_of self.now) }
    {
        self.table.count
    }

    /// The last place: how many words they are the links of.
    pub fn words(&self) -> usize
        ensures { result ≡ place_of self.now }
    {
        usize::from(self.table.place)
    }

    /// All links, each once, by their places.
    pub fn all(&self) -> &[Link]
        ensures value { result.now ≡ links_of self.now }
        ensures once { Once (links_of self.now) }
        ensures rising { Rising (links_of self.now) }
    {
        self.table.since(0)
    }

    /// Whether the link is there.
    pub fn has(&self, link: Link) -> bool
        ensures { Tells result (Mem link (links_of self.now)) }
    {
        self.table.has(link)
    }

    /// The links of a place; none past the last place.
    pub fn of_place(&self, place: usize) -> &[Link]
        ensures { result.now ≡ at_place place (links_of self.now) }
    {
        u8::try_from(place).map_or(&[], |place| self.table.of_place(place))
    }
}
