//! Finding nodes in a list that is in order.
ghost use Rattle.std.specs.Prelude.{◌≤◌, length, MatchOption};
ghost use Rattle.register.specs.Lists.{Climbs};
ghost use Rattle.register.specs.Registers.{held};
ghost use Rattle.records.specs.Orders.{node_cmp};
ghost use Rattle.forest.specs.Finding.{LowerBound, AllDone, Open, NoneBelow, LastBelow};

use records::Node;
use register::Register;

/// How many nodes come before those from i that end at j or later.
fn lower_bound(nodes: &[Node], i: u8, j: u8) -> usize
    ensures { LowerBound nodes.now i j result }
{
    nodes.partition_point(|node| node.from < i || node.from == i && node.to < j)
}

/// The symbol of some node from i to j that is not done.
pub(crate) fn open_symbol(
    nodes: &Register<'_, Node>,
    i: u8,
    j: u8,
    done: &[bool; 256],
) -> Option<u8>
    ensures { MatchOption result (AllDone (held nodes.now) i j done.now) (Open (held nodes.now) i j done.now) }
{
    let records = nodes.records();
    records[lower_bound(records, i, j)..]
        .iter()
        .take_while(|node| node.from == i && node.to == j)
        .map(|node| node.symbol)
        .find(|symbol| !done[usize::from(*symbol)])
}

/// The last place before the limit at which a node from i ends.
pub(crate) fn last_end(nodes: &Register<'_, Node>, i: u8, limit: u8) -> Option<u8>
    ensures { MatchOption result (NoneBelow (held nodes.now) i limit) (LastBelow (held nodes.now) i limit) }
{
    let records = nodes.records();
    let node = records[..lower_bound(records, i, limit)].last()?;
    (node.from == i && node.to < limit).then_some(node.to)
}
