//! Gatherings over two small grammars.
use crate::answers::{Answer, gathered};
use forest::Counts;
use link_growth::Link;
use records::{Alternative, Node};
use sample_sheets::{P, Q};
use std::process::Abort;
use std::test::Fail;

/// A link by its states and places.
fn link(state: u8, place: u8, below: u8, below_place: u8) -> Link {
    Link {
        state,
        place,
        below,
        below_place,
    }
}

/// A node by its places and symbol.
fn node(from: u8, to: u8, symbol: u8) -> Node {
    Node { from, to, symbol }
}

/// An alternative by its rule and the cuts that are used.
fn alternative(rule: u8, used: &[u8]) -> Alternative {
    let mut cuts = [255; 8];
    for (cut, place) in cuts.iter_mut().zip(used) {
        *cut = *place;
    }
    Alternative { rule, cuts }
}

/// The links of P over its eight words; the first three are those of the first two.
fn links_of_p() -> [Link; 15] {
    [
        link(1, 1, 0, 0),
        link(2, 2, 0, 0),
        link(3, 2, 1, 1),
        link(4, 3, 2, 2),
        link(1, 4, 4, 3),
        link(2, 5, 0, 0),
        link(5, 5, 4, 3),
        link(3, 5, 1, 4),
        link(4, 6, 2, 5),
        link(4, 6, 5, 5),
        link(1, 7, 4, 6),
        link(2, 8, 0, 0),
        link(5, 8, 4, 3),
        link(5, 8, 4, 6),
        link(3, 8, 1, 7),
    ]
}

/// The links of Q over one `tin`; the first three are those of no words.
fn links_of_q() -> [Link; 11] {
    [
        link(2, 0, 0, 0),
        link(3, 0, 2, 0),
        link(3, 0, 3, 0),
        link(1, 1, 0, 0),
        link(1, 1, 2, 0),
        link(1, 1, 3, 0),
        link(2, 1, 0, 0),
        link(3, 1, 2, 0),
        link(3, 1, 3, 0),
        link(3, 1, 2, 1),
        link(3, 1, 3, 1),
    ]
}

/// The list holds these records, and blank ones past them.
fn check_records<T: Copy + PartialEq>(rt: &impl Abort, list: &[T], records: &[T], blank: T) {
    for (k, record) in list.iter().enumerate() {
        assert!(rt; *record == records.get(k).copied().unwrap_or(blank));
    }
}

/// The lists hold these records, and blank ones past them.
fn check_lists(rt: &impl Abort, got: &Answer, nodes: &[Node], alternatives: &[Alternative]) {
    let counts = Counts {
        nodes: nodes.len(),
        alternatives: alternatives.len(),
    };
    assert!(rt; got.result == Ok(counts));
    check_records(rt, &got.nodes, nodes, Node::blank());
    check_records(rt, &got.alternatives, alternatives, Alternative::blank());
}

/// The slots that were lent are blank, and no others.
fn check_slots<T: Copy + PartialEq>(rt: &impl Abort, list: &[T], lent: usize, blank: T) {
    for (k, record) in list.iter().enumerate() {
        assert!(rt; (*record == blank) == (k < lent));
    }
}

/// The refusal has this number, and the lists of this room are blank.
fn check_blank(rt: &impl Abort, got: &Answer, number: u8, room: (usize, usize)) {
    assert!(rt; got.result.map_err(|fault| fault.refusal().number) == Err(number));
    check_slots(rt, &got.nodes, room.0, Node::blank());
    check_slots(rt, &got.alternatives, room.1, Alternative::blank());
}

#[test]
fn one_part_of_p(rt: HostRuntime) -> Result<(), Fail> {
    let got = gathered(&rt, &P, &[0, 1], &links_of_p()[0..3], (8, 8))?;
    check_lists(&rt, &got, &[node(0, 2, 4)], &[alternative(1, &[0, 1, 2])]);
    Ok(())
}

#[test]
fn three_parts_of_p(rt: HostRuntime) -> Result<(), Fail> {
    let got = gathered(&rt, &P, &[0, 1, 2, 0, 1, 2, 0, 1], &links_of_p(), (8, 8))?;
    check_lists(
        &rt,
        &got,
        &[
            node(0, 2, 4),
            node(0, 5, 4),
            node(0, 8, 4),
            node(3, 5, 4),
            node(3, 8, 4),
            node(6, 8, 4),
        ],
        &[
            alternative(1, &[0, 1, 2]),
            alternative(2, &[0, 2, 3, 5]),
            alternative(2, &[0, 2, 3, 8]),
            alternative(2, &[0, 5, 6, 8]),
            alternative(1, &[3, 4, 5]),
            alternative(2, &[3, 5, 6, 8]),
            alternative(1, &[6, 7, 8]),
        ],
    );
    Ok(())
}

#[test]
fn no_words_of_q(rt: HostRuntime) -> Result<(), Fail> {
    let got = gathered(&rt, &Q, &[], &links_of_q()[0..3], (8, 8))?;
    check_lists(
        &rt,
        &got,
        &[node(0, 0, 3)],
        &[alternative(1, &[0, 0, 0]), alternative(3, &[0])],
    );
    Ok(())
}

#[test]
fn one_word_of_q(rt: HostRuntime) -> Result<(), Fail> {
    let got = gathered(&rt, &Q, &[1], &links_of_q(), (8, 8))?;
    check_lists(
        &rt,
        &got,
        &[node(0, 0, 3), node(0, 1, 3), node(1, 1, 3)],
        &[
            alternative(1, &[0, 0, 0]),
            alternative(3, &[0]),
            alternative(1, &[0, 0, 1]),
            alternative(1, &[0, 1, 1]),
            alternative(2, &[0, 1]),
            alternative(1, &[1, 1, 1]),
            alternative(3, &[1]),
        ],
    );
    Ok(())
}

#[test]
fn exactly_enough_room(rt: HostRuntime) -> Result<(), Fail> {
    let got = gathered(&rt, &Q, &[1], &links_of_q(), (3, 7))?;
    let counts = Counts {
        nodes: 3,
        alternatives: 7,
    };
    assert!(rt; got.result == Ok(counts));
    Ok(())
}

#[test]
fn no_sentence(rt: HostRuntime) -> Result<(), Fail> {
    let got = gathered(&rt, &P, &[0, 1, 2], &links_of_p()[0..4], (8, 8))?;
    check_blank(&rt, &got, 48, (0, 0));
    Ok(())
}

#[test]
fn one_link_alone(rt: HostRuntime) -> Result<(), Fail> {
    let got = gathered(&rt, &P, &[0, 1], &[link(2, 2, 0, 0)], (8, 8))?;
    check_lists(&rt, &got, &[node(0, 2, 4)], &[alternative(1, &[0, 1, 2])]);
    Ok(())
}

#[test]
fn a_link_that_rises(rt: HostRuntime) -> Result<(), Fail> {
    let got = gathered(&rt, &P, &[0, 1], &[link(2, 0, 0, 2)], (8, 8))?;
    check_blank(&rt, &got, 48, (0, 0));
    Ok(())
}

#[test]
fn short_lists(rt: HostRuntime) -> Result<(), Fail> {
    for (number, n, m) in [
        (49, 0, 0),
        (49, 0, 8),
        (49, 2, 8),
        (49, 2, 6),
        (50, 3, 6),
        (50, 8, 0),
        (50, 8, 6),
    ] {
        let got = gathered(&rt, &Q, &[1], &links_of_q(), (n, m))?;
        check_blank(&rt, &got, number, (n, m));
    }
    Ok(())
}
