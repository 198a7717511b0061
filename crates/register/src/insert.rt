//! Inserting a record in its place.
ghost use Rattle.std.specs.Prelude.{◌≡◌, ◌+◌, ◌<◌, ◌≤◌, length, take};
ghost use Rattle.std.specs.List.{insert};
ghost use Rattle.register.specs.Registers.{Put};

use crate::register::{Full, Register};

/// Moves the first `count` records from the place on up by one slot, and puts x there.
fn put_at<T: Copy>(slots: &mut [T], count: usize, place: usize, x: T)
    requires room { count < length slots.old }
    requires place { place ≤ count }
    ensures { take (count + 1) slots.new ≡ insert (take count slots.old) place x }
{
    slots.copy_within(place..count, place + 1);
    slots[place] = x;
}

impl<T: Ord + Copy> Register<'_, T> {
    /// Puts x in its place among the records, unless it is there; says whether it is new.
    pub fn insert(&mut self, x: T) -> Result<bool, Full>
        ensures { Put self.old self.new x result }
    {
        match self.records().binary_search(&x) {
            Ok(_found) => Ok(false),
            Err(place) => {
                let count = self.count;
                if count == self.slots.len() {
                    return Err(Full);
                }
                put_at(self.slots, count, place, x);
                self.count = count + 1;
                Ok(true)
            }
        }
    }
}
