//! A register over slots that are lent, and what it holds.
ghost use Rattle.std.specs.Prelude.{◌≡◌, ◌-◌, [], ◌++◌, length, replicate};
ghost use Rattle.register.specs.Registers.{held, room, SameSlots};

use crate::register::Register;

impl<'a, T: Ord> Register<'a, T> {
    /// A register that holds nothing, over the slots.
    pub fn new(slots: &'a mut [T]) -> Register<'a, T>
        ensures none { held result ≡ [] }
        ensures slots { result.slots.now ≡ slots.old }
        ensures lent { result.slots.ghost_name ≡ slots.entry.ghost_name }
    {
        Register { slots, count: 0 }
    }

    /// How many records there are.
    pub fn len(&self) -> usize
        ensures { result ≡ length (held self.now) }
    {
        self.count
    }

    /// The records, in order.
    pub fn records(&self) -> &[T]
        ensures { result.now ≡ held self.now }
    {
        &self.slots[0..self.count]
    }
}

impl<T: Ord + Copy> Register<'_, T> {
    /// Writes x into each slot past the records.
    pub fn fill_rest(&mut self, x: T)
        ensures same { SameSlots self.old self.new }
        ensures kept { held self.new ≡ held self.old }
        ensures slots { self.new.slots.now ≡ held self.old ++ replicate (room self.old - length (held self.old)) x }
    {
        // Not `fill`: it asks for a clone that cannot fail, which a record of any kind does not promise.
        self.slots[self.count..].fill_with(|| x);
    }
}
