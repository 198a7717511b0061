//! A table of links as it begins, and as it is cut back.
ghost use Rattle.links.specs.Holding.{Blank, most, Back, Opened};

use crate::cells::Cells;
use crate::fault::TooManyLinks;
use crate::links::Links;
use crate::over::Over;
use crate::table::Table;
use states::StateSource;

impl Links {
    /// No links, over no words.
    pub fn new() -> Links
        ensures { Blank result }
    {
        Links {
            table: Table::new(),
            here: Cells::new(),
            there: Cells::new(),
        }
    }

    /// Closes place 0 of a table that is blank.
    fn begin<S: StateSource>(&mut self, over: &Over<'_, S>) -> Result<(), TooManyLinks>
        requires { Blank self.old }
        ensures { Opened (S.meaning over.now.source.now) over.now.limit self.old result self.new }
    {
        let closed = self.close(over);
        if closed.is_err() {
            self.table.clear();
        }
        closed
    }

    /// The links of no words. A table that is blank is closed at place 0; another is cut back to the links that it has there.
    pub fn open<S: StateSource>(&mut self, source: &S, limit: usize) -> Result<(), TooManyLinks>
        ensures { Opened (S.meaning source.now) (most limit) self.old result self.new }
    {
        let over = Over::new(source, limit);
        if self.table.place == 0 && self.table.count == 0 {
            return self.begin(&over);
        }
        if self.table.start_of(1) > over.limit {
            return Err(TooManyLinks);
        }
        self.table.cut(0);
        Ok(())
    }

    /// Goes back to the first k words, or to all where there are no more.
    pub fn back(&mut self, k: usize)
        ensures { Back k self.old self.new }
    {
        if k < usize::from(self.table.place) {
            self.table.cut(k as u8);
        }
    }
}
