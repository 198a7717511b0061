//! The register itself.
ghost use Rattle.std.specs.Prelude.{◌≤◌, length, take};
ghost use Rattle.register.specs.Lists.{Climbs};

/// All slots are used, and the record is in none of them.
#[derive(Clone, Copy, PartialEq, Eq, Debug)]
pub struct Full;

/// The first `count` of the lent slots hold the records, in order and each once.
#[derive(Drop)]
pub struct Register<'a, T: Ord> {
    // With a count beside them: the slots are lent, and the records are the first of them.
    pub(crate) slots: &'a mut [T],
    pub(crate) count: usize,
    ghost within: { count ≤ length slots.now },
    ghost in_order: { Climbs T.cmp (take count slots.now) },
}
