//! Gathering a forest.
ghost use Rattle.std.specs.Prelude.{◌≤◌};
ghost use Rattle.forest.specs.Sweeps.{MetNode};
ghost use Rattle.forest.specs.Forests.{MetRecord, Writes, Gathers};

use crate::alternatives::put_all_alternatives;
use crate::fault::GatherFault;
use crate::fits::Fits;
use crate::nodes::put_all_nodes;
use crate::span_table::SpanTable;
use arrayvec::ArrayVec;
use link_growth::Link;
use records::{Alternative, Node};
use register::Register;
use states::StateSource;

/// How many records a gathering wrote.
#[derive(Clone, Copy, PartialEq, Eq, Debug)]
pub struct Counts {
    pub nodes: usize,
    pub alternatives: usize,
}

/// Writes the nodes and alternatives that are met from the top into the two lists, and fills the rest with blank records.
fn write<S: StateSource, F: Fits>(
    source: &S,
    spans: &F,
    last: u8,
    nodes: &mut [Node],
    alternatives: &mut [Alternative],
) -> Result<Counts, GatherFault>
    requires { last ≤ 254 }
    ensures { let g = (S.meaning source.now).grammar in let fits = F.says spans.now in Writes (MetNode g fits last) (MetRecord g fits last) nodes.old alternatives.old nodes.new alternatives.new result }
{
    let mut node_register = Register::new(nodes);
    put_all_nodes(source, spans, last, &mut node_register).map_err(|_| GatherFault::NodesShort)?;
    let mut alternative_register = Register::new(alternatives);
    put_all_alternatives(
        source,
        spans,
        node_register.records(),
        &mut alternative_register,
    )
    .map_err(|_| GatherFault::AlternativesShort)?;
    let counts = Counts {
        nodes: node_register.len(),
        alternatives: alternative_register.len(),
    };
    node_register.fill_rest(Node::blank());
    alternative_register.fill_rest(Alternative::blank());
    Ok(counts)
}

/// Writes the nodes and the alternatives that are met over the words and the links from the start symbol down, each once and in order,
/// and blank records past them. Where a list is too short, both are filled with blank records. Over the links of the words these are the
/// nodes and the alternatives of all derivations of the words.
pub fn gather<S: StateSource>(
    source: &S,
    words: &ArrayVec<u8, 254>,
    links: &[Link],
    nodes: &mut [Node],
    alternatives: &mut [Alternative],
) -> Result<Counts, GatherFault>
    ensures { Gathers (S.meaning source.now) words.now.items links.now nodes.old alternatives.old nodes.new alternatives.new result }
{
    let words = words.as_slice();
    let last = words.len() as u8;
    let mut spans = SpanTable::empty();
    spans.add_words(source, words);
    spans.add_links(source, links);
    if !spans.fits(source.right(0, 0), 0, last) {
        return Err(GatherFault::NoSentence);
    }
    let written = write(source, &spans, last, nodes, alternatives);
    if written.is_err() {
        nodes.fill(Node::blank());
        alternatives.fill(Alternative::blank());
    }
    written
}
