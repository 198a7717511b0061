//! A rule over the words between two places.
ghost use Rattle.std.specs.Prelude.{◌≡◌, ◌≢◌, ◌+◌, ◌<◌, ◌≤◌, [], length, slice_index, slice_index_or, MatchOption};
ghost use Rattle.parsing.specs.Grammar.{rule_count, lhs, rhs};
ghost use Rattle.spans.specs.Spans.{part_fits};
ghost use Rattle.forest.specs.Marks.{Completes};

use crate::fits::Fits;
use crate::marks::one_mark;
use crate::part::Part;
use records::Node;
use states::StateSource;

/// A rule of the grammar over the words from i to j, with what is asked of the grammar and of the words.
#[derive(Drop)]
pub(crate) struct RuleOver<'a, S: StateSource, F: Fits> {
    pub(crate) source: &'a S,
    pub(crate) spans: &'a F,
    pub(crate) rule: u8,
    pub(crate) i: u8,
    pub(crate) j: u8,
    ghost known: { rule < rule_count (S.StateSource.meaning source.now).grammar },
}

impl<'a, S: StateSource, F: Fits> RuleOver<'a, S, F> {
    /// The rule over the words of the node, if the node can be taken apart by it.
    pub(crate) fn of(
        source: &'a S,
        spans: &'a F,
        node: Node,
        rule: u8,
    ) -> Option<RuleOver<'a, S, F>>
        requires { rule < rule_count (S.StateSource.meaning source.now).grammar }
        ensures { MatchOption result (lhs (S.StateSource.meaning source.now).grammar rule ≢ node.symbol) (λ o. (lhs (S.StateSource.meaning source.now).grammar rule ≡ node.symbol) × (o.source.now ≡ source.now) × (o.spans.now ≡ spans.now) × (o.rule ≡ rule) × (o.i ≡ node.from) × (o.j ≡ node.to)) }
    {
        let over = RuleOver {
            source,
            spans,
            rule,
            i: node.from,
            j: node.to,
        };
        (source.left(usize::from(rule)) == node.symbol).then_some(over)
    }

    /// How many parts the rule has.
    pub(crate) fn parts(&self) -> usize
        ensures parts { result ≡ length (rhs (S.StateSource.meaning self.now.source.now).grammar self.now.rule) }
        ensures few { result ≤ 7 }
    {
        usize::from(self.source.length(usize::from(self.rule)))
    }

    /// A part, with the row of places where it may end.
    pub(crate) fn part<'b>(&self, p: usize, rows: &'b [[bool; 256]; 8]) -> Part<'a, 'b, F>
        requires { p < length (rhs (S.StateSource.meaning self.now.source.now).grammar self.now.rule) }
        ensures spans { result.spans.now ≡ self.now.spans.now }
        ensures symbol { result.symbol ≡ slice_index (rhs (S.StateSource.meaning self.now.source.now).grammar self.now.rule) p }
        ensures next { result.next.now ≡ slice_index_or rows.now (p + 1) [] }
        ensures from { result.i ≡ self.now.i }
        ensures to { result.j ≡ self.now.j }
    {
        Part {
            spans: self.spans,
            symbol: self.source.right(usize::from(self.rule), p),
            next: &rows[p + 1],
            i: self.i,
            j: self.j,
        }
    }

    /// For each part of the rule but the first, and for its end: the places from i on from which what is left of the rule fits to j.
    pub(crate) fn completes(&self) -> [[bool; 256]; 8]
        ensures { Completes (part_fits (S.StateSource.meaning self.now.source.now).grammar (F.Fits.says self.now.spans.now) self.now.rule) (length (rhs (S.StateSource.meaning self.now.source.now).grammar self.now.rule)) self.now.i self.now.j result 1 }
    {
        let mut rows = [one_mark(self.j); 8];
        // By number, from behind: a row is read off the one behind it.
        for p in (1..self.parts()).rev() {
            let row = self.part(p, &rows).begins();
            rows[p] = row;
        }
        rows
    }
}
