//! What a gather leaves in its lists.
use crate::answers::Answer;
use crate::sheets::{grammar_of, reading_of, states_of};
use reader::Reading;
use records::{Alternative, Node};
use sample_sheets::{P, Q};
use states::StateSource;
use std::process::Abort;
use std::test::Fail;

/// The room for nodes and for alternatives.
pub const ROOM: usize = 8;

/// A node that no gather writes.
pub fn old_node() -> Node {
    Node {
        from: 7,
        to: 7,
        symbol: 7,
    }
}

/// An alternative that no gather writes.
pub fn old_alternative() -> Alternative {
    Alternative {
        rule: 7,
        cuts: [7; 8],
    }
}

/// Nodes by their places and symbols, and alternatives by their rules and cuts.
#[derive(Clone, Copy)]
struct Forest {
    nodes: &'static [(u8, u8, u8)],
    alternatives: &'static [(u8, &'static [u8])],
}

/// The two lists that are lent.
#[derive(Clone, Copy)]
pub struct Lists {
    nodes: [Node; ROOM],
    alternatives: [Alternative; ROOM],
}

impl Lists {
    /// Gathers into so many slots of lists that nothing was written to.
    pub fn gathered<S: StateSource>(reading: &Reading<S>, n: usize, m: usize) -> (Answer, Lists) {
        let mut nodes = [old_node(); ROOM];
        let mut alternatives = [old_alternative(); ROOM];
        let answer = Answer::from(reading.gather(
            &mut nodes[..n.min(ROOM)],
            &mut alternatives[..m.min(ROOM)],
        ));
        (
            answer,
            Lists {
                nodes,
                alternatives,
            },
        )
    }

    /// The lists hold the forest, and blank records past it.
    fn check_forest(&self, rt: &impl Abort, forest: Forest) {
        for (k, node) in self.nodes.iter().enumerate() {
            let (from, to, symbol) = forest.nodes.get(k).copied().unwrap_or((255, 255, 255));
            assert_eq!(rt; *node, Node { from, to, symbol });
        }
        for (k, alternative) in self.alternatives.iter().enumerate() {
            let (rule, cuts) = forest.alternatives.get(k).copied().unwrap_or((255, &[]));
            assert_eq!(rt; alternative.rule, rule);
            for (p, cut) in alternative.cuts.iter().enumerate() {
                assert_eq!(rt; *cut, cuts.get(p).copied().unwrap_or(255));
            }
        }
    }

    /// So many slots are blank, and the others are as they were.
    fn check_blank(&self, rt: &impl Abort, n: usize, m: usize) {
        for (k, node) in self.nodes.iter().enumerate() {
            assert_eq!(rt; *node, if k < n { Node::blank() } else { old_node() });
        }
        for (k, alternative) in self.alternatives.iter().enumerate() {
            assert_eq!(rt;
                *alternative,
                if k < m {
                    Alternative::blank()
                } else {
                    old_alternative()
                }
            );
        }
    }
}

/// P over its eight words.
const THREE_PARTS: Forest = Forest {
    nodes: &[
        (0, 2, 4),
        (0, 5, 4),
        (0, 8, 4),
        (3, 5, 4),
        (3, 8, 4),
        (6, 8, 4),
    ],
    alternatives: &[
        (1, &[0, 1, 2]),
        (2, &[0, 2, 3, 5]),
        (2, &[0, 2, 3, 8]),
        (2, &[0, 5, 6, 8]),
        (1, &[3, 4, 5]),
        (2, &[3, 5, 6, 8]),
        (1, &[6, 7, 8]),
    ],
};

/// Q over no words.
const NOTHING: Forest = Forest {
    nodes: &[(0, 0, 3)],
    alternatives: &[(1, &[0, 0, 0]), (3, &[0])],
};

/// Q over one `tin`.
const ONE_TIN: Forest = Forest {
    nodes: &[(0, 0, 3), (0, 1, 3), (1, 1, 3)],
    alternatives: &[
        (1, &[0, 0, 0]),
        (3, &[0]),
        (1, &[0, 0, 1]),
        (1, &[0, 1, 1]),
        (2, &[0, 1]),
        (1, &[1, 1, 1]),
        (3, &[1]),
    ],
};

#[test]
fn forests(rt: HostRuntime) -> Result<(), Fail> {
    let cases: [(&[u8], &[usize], Forest); 3] = [
        (&P, &[0, 1, 2, 0, 1, 2, 0, 1], THREE_PARTS),
        (&Q, &[], NOTHING),
        (&Q, &[1], ONE_TIN),
    ];
    for (sheet, words, forest) in cases {
        let reading = reading_of(sheet, words)?;
        let (answer, lists) = Lists::gathered(&reading, ROOM, ROOM);
        assert_eq!(rt;
            answer,
            Answer::Counted(forest.nodes.len(), forest.alternatives.len())
        );
        lists.check_forest(&rt, forest);
    }
    Ok(())
}

#[test]
fn lists_that_are_too_short_are_blank(rt: HostRuntime) -> Result<(), Fail> {
    for (number, n, m) in [(49, 0, 0), (49, 0, 8), (50, 1, 0), (50, 8, 0)] {
        let reading = reading_of(&P, &[0, 1])?;
        let (answer, lists) = Lists::gathered(&reading, n, m);
        assert_eq!(rt; answer, Answer::Refused(number, 0, 0));
        lists.check_blank(&rt, n, m);
    }
    Ok(())
}

#[test]
fn lists_of_no_sentence_stay(rt: HostRuntime) -> Result<(), Fail> {
    let reading = reading_of(&P, &[0, 1, 2])?;
    let (answer, lists) = Lists::gathered(&reading, ROOM, ROOM);
    assert_eq!(rt; answer, Answer::Refused(48, 0, 0));
    lists.check_blank(&rt, 0, 0);
    Ok(())
}

#[test]
fn lists_stay_while_closed(rt: HostRuntime) -> Result<(), Fail> {
    let reading = Reading::new(states_of(&grammar_of(&Q)?)?);
    let (answer, lists) = Lists::gathered(&reading, ROOM, ROOM);
    assert_eq!(rt; answer, Answer::Refused(40, 0, 0));
    lists.check_blank(&rt, 0, 0);
    Ok(())
}
