//! A call on a reading as a value, and what a call answers.
use reader::{Counts, ReadingFault, ThroughFault};
use records::{Alternative, Node};

/// A call with its arguments.
#[derive(Drop)]
pub enum Step<F> {
    Open(usize),
    Take(usize),
    ReadThrough(F),
    Back(usize),
    Judge,
    /// The lists are filled as far as they are long.
    Gather(Vec<Node>, Vec<Alternative>),
}

/// The answer of a call.
#[derive(Clone, Copy, PartialEq, Eq, Debug)]
pub enum Told {
    /// Of open, take and back.
    Done(Result<(), ReadingFault>),
    Judged(Result<bool, ReadingFault>),
    ReadThrough(Result<bool, ThroughFault>),
    Gathered(Result<Counts, ReadingFault>),
}
