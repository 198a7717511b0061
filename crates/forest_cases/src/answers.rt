//! What a gathering answers and leaves in its lists.
use arrayvec::ArrayVec;
use built_states::BuiltStates;
use forest::{Counts, GatherFault, gather};
use grammar::Grammar;
use link_growth::Link;
use records::{Alternative, Node};
use std::process::Abort;
use std::test::Fail;

/// The room for nodes and for alternatives.
pub const ROOM: usize = 8;

/// What a gathering answers, and both lists, with their slots past the room that was lent.
#[derive(Clone, Copy)]
pub struct Answer {
    pub result: Result<Counts, GatherFault>,
    pub nodes: [Node; ROOM],
    pub alternatives: [Alternative; ROOM],
}

/// A node that no gathering writes.
fn old_node() -> Node {
    Node {
        from: 7,
        to: 7,
        symbol: 7,
    }
}

/// An alternative that no gathering writes.
fn old_alternative() -> Alternative {
    Alternative {
        rule: 7,
        cuts: [7; 8],
    }
}

/// Gathers over the states that are built from a sheet, into lists with the given room.
pub fn gathered(
    rt: &impl Abort,
    sheet: &[u8],
    words: &[u8],
    links: &[Link],
    room: (usize, usize),
) -> Result<Answer, Fail> {
    let grammar = Grammar::read(sheet)?;
    let source = BuiltStates::build(&grammar)?;
    let mut nodes = [old_node(); ROOM];
    let mut alternatives = [old_alternative(); ROOM];
    let (n, m) = room;
    assert!(rt; n <= ROOM && m <= ROOM);
    let kept: ArrayVec<u8, 254> = ArrayVec::try_from(words)?;
    let result = gather(
        &source,
        &kept,
        links,
        &mut nodes[0..n],
        &mut alternatives[0..m],
    );
    Ok(Answer {
        result,
        nodes,
        alternatives,
    })
}
