//! A node of a forest.
ghost use Rattle.std.specs.Prelude.{◌≡◌};
ghost use Rattle.records.specs.Blanks.{blank_node};
ghost use Rattle.std.specs.Ordering.{as_partial_cmp};
ghost use Rattle.records.specs.Orders.{node_cmp, by_node};
ghost use Rattle.std.specs.Cmp.{partial_order_from_agreeing_total};
ghost use Rattle.records.specs.OrderLaws.{node_ties};
ghost use Rattle.std.proofs.Common.{refl};

use std::cmp::Ordering;

/// A nonterminal over the words from one place to another. Nodes go by `from`, then `to`, then `symbol`.
#[derive(Clone, Copy, PartialEq, Eq, Debug)]
pub struct Node {
    pub from: u8,
    pub to: u8,
    pub symbol: u8,
}

impl Node {
    // Not `Default`, which is derived as 0 throughout.
    /// What a slot without a node holds: 255 throughout.
    pub fn blank() -> Node
        ensures { result ≡ blank_node }
    {
        Node {
            from: 255,
            to: 255,
            symbol: 255,
        }
    }
}

// By hand: a derived order is whatever the order of the fields is, and no clause would say which.
impl PartialOrd for Node {
    ghost partial_cmp = { as_partial_cmp node_cmp };

    ghost laws = { partial_order_from_agreeing_total node_cmp by_node (λ _ _. refl) node_ties };

    fn partial_cmp(&self, other: &Node) -> Option<Ordering> {
        Some(self.cmp(other))
    }
}

impl Ord for Node {
    ghost cmp = { node_cmp };

    ghost total = { by_node };

    ghost matches_partial_cmp = { λ _ _. refl };

    ghost matches_eq = { node_ties };

    fn cmp(&self, other: &Node) -> Ordering {
        let mine = (self.from, self.to, self.symbol);
        let theirs = (other.from, other.to, other.symbol);
        mine.cmp(&theirs)
    }
}
