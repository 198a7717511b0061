//! The links of a generalised LR reading, and the theory of lists of links that grow by the word rule and the reduction rule.
#![tactic(auto)]

ghost use Rattle.link_growth.specs.Closures.{OneClosure};
ghost use Rattle.link_growth.specs.Counting.{Counting};

/// A link of the graph-structured stack: the state at its place stands on the state below, at the place below.
#[derive(Clone, Copy, Debug, Default, PartialEq, Eq)]
pub struct Link {
    pub state: u8,
    pub place: u8,
    pub below: u8,
    pub below_place: u8,
}

/// A cell of the graph-structured stack: a state at a place.
#[derive(Clone, Copy, Debug, Default, PartialEq, Eq)]
pub struct Cell {
    pub state: u8,
    pub place: u8,
}

/// The number of links of some words is one number, and a list without repeats of their links is no longer.
pub fn links_have_one_number()
    ensures { Counting }
{}

/// What the rules make of some links at a place is one set, and how many links it has is one number.
pub fn links_have_one_closure()
    ensures { OneClosure }
{}
