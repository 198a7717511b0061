//! All nodes that are met from the top.
ghost use Rattle.std.specs.Prelude.{◌≡◌, ◌+◌, ◌<◌, ◌≤◌, []};
ghost use Rattle.register.specs.Registers.{held};
ghost use Rattle.records.specs.declared.node.Node.{Node as NodeRecord};
ghost use Rattle.forest.specs.Sweeps.{Past, Settles, Collected};

use crate::finding::{last_end, open_symbol};
use crate::fits::Fits;
use crate::parts::put_parts;
use records::Node;
use register::{Full, Register};
use states::StateSource;

// The source, the spans and the nodes stay parameters: `put_parts` asks for each, so a struct of them would be made only to be taken apart.
// So do i and j: the symbol of the node between them is asked for.
/// Adds the parts of the nodes from i to j until there are no more.
fn settle<S: StateSource, F: Fits>(
    source: &S,
    spans: &F,
    i: u8,
    j: u8,
    nodes: &mut Register<'_, Node>,
) -> Result<(), Full>
    ensures { Settles (S.StateSource.meaning source.now).grammar (F.Fits.says spans.now) (Past i (j + 1)) (Past i j) nodes.old nodes.new result }
{
    // Not a `SymbolSet`, which has room for symbols below 64: a node that is handed in may have another.
    let mut done = [false; 256];
    while let Some(symbol) = open_symbol(nodes, i, j, &done) {
        put_parts(
            source,
            spans,
            Node {
                from: i,
                to: j,
                symbol,
            },
            nodes,
        )?;
        done[usize::from(symbol)] = true;
    }
    Ok(())
}

/// Adds the parts of the nodes from i, those that end last first, until there are no more.
fn sweep_from<S: StateSource, F: Fits>(
    source: &S,
    spans: &F,
    i: u8,
    nodes: &mut Register<'_, Node>,
) -> Result<(), Full>
    ensures { Settles (S.StateSource.meaning source.now).grammar (F.Fits.says spans.now) (λ (z : NodeRecord). z.from < i) (λ (z : NodeRecord). z.from < i + 1) nodes.old nodes.new result }
{
    let mut limit = 255;
    while let Some(j) = last_end(nodes, i, limit) {
        settle(source, spans, i, j, nodes)?;
        limit = j;
    }
    Ok(())
}

/// Adds every node that is met from the top, the start symbol over all words.
pub(crate) fn put_all_nodes<S: StateSource, F: Fits>(
    source: &S,
    spans: &F,
    last: u8,
    nodes: &mut Register<'_, Node>,
) -> Result<(), Full>
    requires none { held nodes.old ≡ [] }
    requires few { last ≤ 254 }
    ensures { Collected (S.StateSource.meaning source.now).grammar (F.Fits.says spans.now) last nodes.old nodes.new result }
{
    let top = Node {
        from: 0,
        to: last,
        symbol: source.right(0, 0),
    };
    let _new = nodes.insert(top)?;
    for i in 0..=last {
        sweep_from(source, spans, i, nodes)?;
    }
    Ok(())
}
