//! What is known, by place, by state and by row.
ghost use Rattle.std.specs.Prelude.{◌≡◌, ℕ, ◌<◌, [], ◌∷◌, ◌++◌, length, MatchBool, MatchOption};
ghost use Rattle.rows.specs.Rows.{items};
ghost use Rattle.table_format.specs.Walks.{state_at, row_at, KnownAt, Knows, NewState, NewRow};
ghost use Rattle.tables.specs.Lists.{known_of, listed, KnowsRow, Unreached, Apart, RowsBy};

use crate::known::{Known, KnownStates};
use arrayvec::ArrayVec;
use rows::Row;

impl KnownStates {
    /// State 0 alone, with its row.
    pub(crate) fn begin(row: Row) -> KnownStates
        ensures { listed result ≡ record { state = 0; row = items row } ∷ [] }
    {
        let mut list = ArrayVec::new();
        list.push(Known { state: 0, row });
        KnownStates { list }
    }

    /// How many states are known.
    pub(crate) fn len(&self) -> usize
        ensures { result ≡ length (listed self.now) }
    {
        self.list.len()
    }

    /// The state that became known in a place, with its row.
    pub(crate) fn at(&self, place: usize) -> Known
        requires { place < length (listed self.now) }
        ensures state { result.state ≡ state_at (listed self.now) place }
        ensures row { items result.row ≡ row_at (listed self.now) place }
    {
        self.list[place]
    }

    /// The place of a state.
    pub(crate) fn place_of(&self, state: u8) -> Option<usize>
        ensures { MatchOption result (NewState (listed self.now) state) (λ j. KnownAt (listed self.now) state j) }
    {
        self.list.iter().position(|known| known.state == state)
    }

    /// Whether a known state has this row.
    pub(crate) fn knows_row(&self, row: &Row) -> bool
        ensures { MatchBool result (KnowsRow (listed self.now) (items row.now)) (NewRow (listed self.now) (items row.now)) }
    {
        self.list.iter().any(|known| known.row.same(row))
    }

    /// One more state becomes known.
    pub(crate) fn push(&mut self, known: Known)
        requires { length (listed self.old) < 255 }
        ensures { listed self.new ≡ listed self.old ++ known_of known ∷ [] }
    {
        self.list.push(known);
    }

    /// The lowest of so many states that is not known.
    pub(crate) fn unreached(&self, states: u8) -> Option<u8>
        ensures { MatchOption result ((s : ℕ) → s < states → Knows (listed self.now) s) (λ s. Unreached (listed self.now) states s) }
    {
        (0..states).find(|state| self.place_of(*state).is_none())
    }

    /// The rows of the known states, by state.
    pub(crate) fn rows(&self) -> [Row; 255]
        requires { Apart (listed self.now) }
        ensures { RowsBy (listed self.now) result (length (listed self.now)) }
    {
        let mut rows = [Row::default(); 255];
        for known in self.list.iter() {
            rows[usize::from(known.state)] = known.row;
        }
        rows
    }
}
