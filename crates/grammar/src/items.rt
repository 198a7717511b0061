//! The items of a list in fixed memory.
ghost use Rattle.std.specs.Prelude.{◌≡◌, ◌<◌, ◌≤◌, [], ◌∷◌, ◌++◌, length};
ghost use Rattle.grammar.specs.Lists.{items};

use crate::few::Few;

impl<T: Copy, const N: usize> Few<T, N> {
    /// The list of no items, over a room.
    pub(crate) fn over(room: [T; N]) -> Few<T, N>
        ensures { items result ≡ [] }
    {
        Few { room, count: 0 }
    }

    /// The list of these items; the rest of its room is blank.
    pub(crate) fn of(list: &[T], blank: T) -> Few<T, N>
        requires few { length list.now ≤ N }
        requires small { N < 256 }
        ensures { items result ≡ list.now }
    {
        let mut few = Few::over([blank; N]);
        for item in list {
            few.push(*item);
        }
        few
    }

    /// How many items there are.
    pub(crate) fn count(&self) -> u8
        ensures value { result ≡ length (items self.now) }
        ensures bound { result ≤ N }
    {
        self.count
    }

    /// The items.
    pub(crate) fn as_slice(&self) -> &[T]
        ensures { result.now ≡ items self.now }
    {
        &self.room[..usize::from(self.count)]
    }

    /// Puts an item behind the others.
    pub(crate) fn push(&mut self, item: T)
        requires space { length (items self.old) < N }
        requires small { N < 256 }
        ensures { items self.new ≡ items self.old ++ item ∷ [] }
    {
        self.room[usize::from(self.count)] = item;
        self.count += 1;
    }
}
