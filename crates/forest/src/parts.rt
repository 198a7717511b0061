//! The parts of a node.
ghost use Rattle.std.specs.Prelude.{length};
ghost use Rattle.parsing.specs.Grammar.{rule_count, rhs};
ghost use Rattle.register.specs.Registers.{Filled};
ghost use Rattle.forest.specs.Parts.{From, Between, PartOf, PartBelow};

use crate::fits::Fits;
use crate::marks::one_mark;
use crate::part::Part;
use crate::rule_over::RuleOver;
use records::Node;
use register::{Full, Register};
use states::StateSource;

impl<F: Fits> Part<'_, '_, F> {
    // Not one loop with `mark_ends`, nor `put_between` with `ends`: a mark always finds room, and a node may not.
    /// Adds the nodes of the part from a.
    fn put_from(&self, a: u8, nodes: &mut Register<'_, Node>) -> Result<(), Full>
        ensures { Filled (From (F.Fits.says self.now.spans.now self.now.symbol) self.now.next.now self.now.symbol self.now.j a) nodes.old nodes.new result }
    {
        for b in a..=self.j {
            if self.goes(a, b) {
                nodes.insert(Node {
                    from: a,
                    to: b,
                    symbol: self.symbol,
                })?;
            }
        }
        Ok(())
    }

    /// Adds the nodes of the part from marked places.
    fn put_between(&self, before: &[bool; 256], nodes: &mut Register<'_, Node>) -> Result<(), Full>
        ensures { Filled (Between (F.Fits.says self.now.spans.now self.now.symbol) before.now self.now.next.now self.now.symbol self.now.i self.now.j) nodes.old nodes.new result }
    {
        // By place, not by `enumerate`: a place is a byte.
        for a in self.i..=self.j {
            if before[usize::from(a)] {
                self.put_from(a, nodes)?;
            }
        }
        Ok(())
    }
}

impl<S: StateSource, F: Fits> RuleOver<'_, S, F> {
    /// Adds the nonterminal parts of all alternatives by the rule from i to j.
    fn put_parts(&self, nodes: &mut Register<'_, Node>) -> Result<(), Full>
        ensures { Filled (PartOf (S.StateSource.meaning self.now.source.now).grammar (F.Fits.says self.now.spans.now) self.now.rule self.now.i self.now.j (length (rhs (S.StateSource.meaning self.now.source.now).grammar self.now.rule))) nodes.old nodes.new result }
    {
        let rows = self.completes();
        let mut before = one_mark(self.i);
        for p in 0..self.parts() {
            let part = self.part(p, &rows);
            if part.symbol >= self.source.terminals() {
                part.put_between(&before, nodes)?;
            }
            before = part.ends(&before);
        }
        Ok(())
    }
}

/// Adds the nonterminal parts of all alternatives of a node.
pub(crate) fn put_parts<S: StateSource, F: Fits>(
    source: &S,
    spans: &F,
    node: Node,
    nodes: &mut Register<'_, Node>,
) -> Result<(), Full>
    ensures { Filled (PartBelow (S.StateSource.meaning source.now).grammar (F.Fits.says spans.now) node (rule_count (S.StateSource.meaning source.now).grammar)) nodes.old nodes.new result }
{
    for rule in 0..source.rules() {
        if let Some(over) = RuleOver::of(source, spans, node, rule) {
            over.put_parts(nodes)?;
        }
    }
    Ok(())
}
