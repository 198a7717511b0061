//! Taking one word more.
ghost use Rattle.links.specs.Holding.{most, Took};

use crate::fault::TakeFault;
use crate::links::Links;
use crate::over::{Over, Symbol, Word};
use states::StateSource;

impl Links {
    /// The links of one word more; where it is refused, the links are as they were.
    pub fn take<S: StateSource>(
        &mut self,
        source: &S,
        terminal: usize,
        limit: usize,
    ) -> Result<(), TakeFault>
        ensures { Took (S.meaning source.now) terminal (most limit) self.old result self.new }
    {
        let place = self.table.place;
        if place >= 254 {
            return Err(TakeFault::TooManyWords);
        }
        let x = u8::try_from(terminal).map_err(|_| TakeFault::NoTerminal)?;
        if x >= source.terminals() {
            return Err(TakeFault::NoTerminal);
        }
        let over = Over::new(source, limit);
        let symbol = Symbol { over: &over, x };
        let word = Word { symbol };
        if !self.table.steps(&word) {
            return Err(TakeFault::NoStep);
        }
        self.table.begin();
        if self.extend(&word).is_err() {
            self.table.cut(place);
            return Err(TakeFault::TooManyLinks);
        }
        Ok(())
    }
}
