//! Adding links to a table at its last place.
ghost use Rattle.std.specs.Prelude.{◌≡◌, ◌+◌, ◌≤◌, true, false, [], drop, MatchResult};
ghost use Rattle.link_growth.specs.Entries.{Mem};
ghost use Rattle.links.specs.Placing.{at_place};
ghost use Rattle.links.specs.Tables.{content, Kept, Added, Refused, StartsAt};

use crate::fault::TooManyLinks;
use crate::table::Table;
use link_growth::Link;

impl Table {
    /// A table with no links, at place 0.
    pub(crate) fn new() -> Table
        ensures content { content result ≡ [] }
        ensures place { result.place ≡ 0 }
    {
        let blank = Link::default();
        Table {
            links: [blank; 4096],
            count: 0,
            starts: [0; 256],
            place: 0,
        }
    }

    /// Where the links of a place begin; past the last place, where the links end.
    pub(crate) fn start_of(&self, place: u8) -> usize
        ensures { StartsAt self.now place result }
    {
        if place > self.place {
            return self.count;
        }
        usize::from(self.starts[usize::from(place)])
    }

    /// Where the links of a place end.
    pub(crate) fn end_of(&self, place: u8) -> usize
        ensures { StartsAt self.now (place + 1) result }
    {
        if place >= self.place {
            return self.count;
        }
        self.start_of(place + 1)
    }

    /// The links of a place; none past the last place.
    pub(crate) fn of_place(&self, place: u8) -> &[Link]
        ensures { result.now ≡ at_place place (content self.now) }
    {
        let start = self.start_of(place);
        let end = self.end_of(place);
        &self.links[start..end]
    }

    /// The links from the number `from` on; none past the last.
    pub(crate) fn since(&self, from: usize) -> &[Link]
        ensures { result.now ≡ drop from (content self.now) }
    {
        &self.links[from.min(self.count)..self.count]
    }

    /// Whether the table has the link.
    pub(crate) fn has(&self, link: Link) -> bool
        ensures there { result ≡ true → Mem link (content self.now) }
        ensures absent { result ≡ false → Mem link (content self.now) → ⊥ }
    {
        self.of_place(link.place).contains(&link)
    }

    /// Adds a link of the last place that is not there.
    pub(crate) fn push(&mut self, link: Link, limit: usize) -> Result<(), TooManyLinks>
        requires bound { limit ≤ 4096 }
        requires here { link.place ≡ self.old.place }
        requires falls { link.below_place ≤ self.old.place }
        requires fresh { Mem link (content self.old) → ⊥ }
        ensures kept { Kept self.old self.new limit }
        ensures cases { let xs = content self.old in
            let ys = content self.new in
            MatchResult result (λ _. Added xs ys link) (λ _. Refused xs ys link limit) }
    {
        let n = self.count;
        if n >= limit {
            return Err(TooManyLinks);
        }
        self.links[n] = link;
        self.count = n + 1;
        Ok(())
    }

    /// Adds a link of the last place, unless it is there.
    pub(crate) fn put(&mut self, link: Link, limit: usize) -> Result<(), TooManyLinks>
        requires bound { limit ≤ 4096 }
        requires here { link.place ≡ self.old.place }
        requires falls { link.below_place ≤ self.old.place }
        ensures kept { Kept self.old self.new limit }
        ensures cases { let xs = content self.old in
            let ys = content self.new in
            MatchResult result (λ _. Added xs ys link) (λ _. Refused xs ys link limit) }
    {
        if self.has(link) {
            return Ok(());
        }
        self.push(link, limit)
    }
}
