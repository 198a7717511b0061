//! Going from place to place, and the word rule.
ghost use Rattle.std.specs.Prelude.{◌≡◌, ◌-◌, ◌<◌, ◌≤◌, true, false, [], Some};
ghost use Rattle.link_growth.specs.Closures.{StepsFrom};
ghost use Rattle.link_growth.specs.Growth.{Stepped, Shut};
ghost use Rattle.links.specs.Tables.{content, Making, FirstStepped, LinksStepped, Begun, Cut};

use crate::fault::TooManyLinks;
use crate::links::Links;
use crate::over::Word;
use crate::table::Table;
use link_growth::Link;
use states::StateSource;

impl Table {
    /// Begins the next place.
    pub(crate) fn begin(&mut self)
        requires { self.old.place < 254 }
        ensures { Begun self.old self.new }
    {
        let place = self.place + 1;
        self.starts[usize::from(place)] = self.count as u16;
        self.place = place;
    }

    /// Drops all links.
    pub(crate) fn clear(&mut self)
        ensures content { content self.new ≡ [] }
        ensures place { self.new.place ≡ 0 }
    {
        self.count = 0;
        self.place = 0;
    }

    /// Cuts the table back to the place k.
    pub(crate) fn cut(&mut self, k: u8)
        requires { k ≤ self.old.place }
        ensures { Cut k self.old self.new }
    {
        self.count = self.end_of(k);
        self.place = k;
    }

    /// Whether some state that is live at the last place has a step by the word.
    pub(crate) fn steps<S: StateSource>(&self, word: &Word<'_, S>) -> bool
        ensures some { let src = S.meaning word.now.symbol.over.now.source.now in
            result ≡ true → StepsFrom src (content self.now) self.now.place word.now.symbol.x }
        ensures none { let src = S.meaning word.now.symbol.over.now.source.now in
            result ≡ false → StepsFrom src (content self.now) self.now.place word.now.symbol.x → ⊥ }
    {
        let source = word.symbol.over.source;
        let x = word.symbol.x;
        if self.place == 0 && source.next(source.first(), x).is_some() {
            return true;
        }
        self.of_place(self.place)
            .iter()
            .any(|link| source.next(link.state, x).is_some())
    }

    /// The word rule from the first state, where it is live at the place below the last.
    fn shift_first<S: StateSource>(&mut self, word: &Word<'_, S>) -> Result<(), TooManyLinks>
        ensures { let src = S.meaning word.now.symbol.over.now.source.now in
            let x = word.now.symbol.x in
            let limit = word.now.symbol.over.now.limit in
            Making src (Some x) self.old self.new limit result (FirstStepped src x self.old.place (content self.new)) }
    {
        if self.place != 1 {
            return Ok(());
        }
        let over = word.symbol.over;
        let first = over.source.first();
        let Some(state) = over.source.next(first, word.symbol.x) else {
            return Ok(());
        };
        let link = Link {
            state,
            place: self.place,
            below: first,
            below_place: 0,
        };
        self.put(link, over.limit)
    }

    /// The word rule from the states of the links of the place below the last.
    fn shift_links<S: StateSource>(&mut self, word: &Word<'_, S>) -> Result<(), TooManyLinks>
        requires { 0 < self.old.place }
        ensures { let src = S.meaning word.now.symbol.over.now.source.now in
            let x = word.now.symbol.x in
            let limit = word.now.symbol.over.now.limit in
            Making src (Some x) self.old self.new limit result
            (LinksStepped src x self.old.place (content self.old) (content self.new)) }
    {
        let over = word.symbol.over;
        let below_place = self.place - 1;
        let start = self.start_of(below_place);
        let end = self.start_of(self.place);
        // By index: a link that is added changes the table, from which no slice can be lent meanwhile.
        for k in start..end {
            let below = self.links[k].state;
            let Some(state) = over.source.next(below, word.symbol.x) else {
                continue;
            };
            let link = Link {
                state,
                place: self.place,
                below,
                below_place,
            };
            self.put(link, over.limit)?;
        }
        Ok(())
    }
}

impl Links {
    /// The word rule, from all states that are live at the place below the last, and then the reductions.
    pub(crate) fn extend<S: StateSource>(&mut self, word: &Word<'_, S>) -> Result<(), TooManyLinks>
        requires { 0 < self.old.table.place }
        ensures { let src = S.meaning word.now.symbol.over.now.source.now in
            let x = word.now.symbol.x in
            let t = self.old.table in
            let u = self.new.table in
            Making src (Some x) t u word.now.symbol.over.now.limit result
            (Stepped src x t.place (t.place - 1) (content t) (content u) × Shut src t.place (content u)) }
    {
        self.table.shift_first(word)?;
        self.table.shift_links(word)?;
        self.close(word.symbol.over)
    }
}
