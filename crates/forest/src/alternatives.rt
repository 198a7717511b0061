//! The alternatives of a node.
ghost use Rattle.std.specs.Prelude.{◌≡◌, ◌≤◌, length, replicate, slice_set};
ghost use Rattle.parsing.specs.Grammar.{rule_count, rhs};
ghost use Rattle.register.specs.Registers.{Filled};
ghost use Rattle.forest.specs.Parts.{Unused, Extends, Whole, Of};
ghost use Rattle.forest.specs.Sweeps.{OfSome};

use crate::fits::Fits;
use crate::rule_over::RuleOver;
use records::{Alternative, Node};
use register::{Full, Register};
use states::StateSource;

/// The cuts of which only the first is used.
fn cuts_from(i: u8) -> [u8; 8]
    ensures { result ≡ slice_set (replicate 8 255) 0 i }
{
    let mut cuts = [255; 8];
    cuts[0] = i;
    cuts
}

impl<S: StateSource, F: Fits> RuleOver<'_, S, F> {
    // A number beside the cuts: an alternative is laid down with room for eight.
    /// Adds every alternative that begins with the cuts up to part p and goes on along marked places.
    fn visit(
        &self,
        rows: &[[bool; 256]; 8],
        p: usize,
        cuts: [u8; 8],
        alternatives: &mut Register<'_, Alternative>,
    ) -> Result<(), Full>
        requires part { p ≤ length (rhs (S.StateSource.meaning self.now.source.now).grammar self.now.rule) }
        requires unused { Unused p cuts }
        ensures { Filled (Extends (S.StateSource.meaning self.now.source.now).grammar (F.Fits.says self.now.spans.now) rows.now self.now.rule self.now.j p cuts) alternatives.old alternatives.new result }
    {
        if p == self.parts() {
            let _new = alternatives.insert(Alternative {
                rule: self.rule,
                cuts,
            })?;
            return Ok(());
        }
        let part = self.part(p, rows);
        for c in cuts[p]..=self.j {
            if part.goes(cuts[p], c) {
                let mut longer = cuts;
                longer[p + 1] = c;
                self.visit(rows, p + 1, longer, alternatives)?;
            }
        }
        Ok(())
    }

    /// Adds every alternative by the rule from i to j.
    fn put_alternatives(&self, alternatives: &mut Register<'_, Alternative>) -> Result<(), Full>
        ensures { Filled (Whole (S.StateSource.meaning self.now.source.now).grammar (F.Fits.says self.now.spans.now) self.now.rule self.now.i self.now.j) alternatives.old alternatives.new result }
    {
        if self.parts() == 0 && self.i != self.j {
            return Ok(());
        }
        self.visit(&self.completes(), 0, cuts_from(self.i), alternatives)
    }
}

// Not one loop with `put_parts`, by a closure: its contract would have to tell what each call leaves in a list.
/// Adds every alternative of a node.
pub(crate) fn put_alternatives<S: StateSource, F: Fits>(
    source: &S,
    spans: &F,
    node: Node,
    alternatives: &mut Register<'_, Alternative>,
) -> Result<(), Full>
    ensures { Filled (Of (S.StateSource.meaning source.now).grammar (F.Fits.says spans.now) node (rule_count (S.StateSource.meaning source.now).grammar)) alternatives.old alternatives.new result }
{
    for rule in 0..source.rules() {
        if let Some(over) = RuleOver::of(source, spans, node, rule) {
            over.put_alternatives(alternatives)?;
        }
    }
    Ok(())
}

/// Adds every alternative of the nodes.
pub(crate) fn put_all_alternatives<S: StateSource, F: Fits>(
    source: &S,
    spans: &F,
    nodes: &[Node],
    alternatives: &mut Register<'_, Alternative>,
) -> Result<(), Full>
    ensures { Filled (OfSome (S.StateSource.meaning source.now).grammar (F.Fits.says spans.now) nodes.now (length nodes.now)) alternatives.old alternatives.new result }
{
    for node in nodes {
        put_alternatives(source, spans, *node, alternatives)?;
    }
    Ok(())
}
