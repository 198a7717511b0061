//! Which symbols derive some list of terminals: marks that grow until nothing is added.
ghost use Rattle.std.specs.Prelude.{◌≡◌, ℕ, ◌+◌, ◌<◌, ◌≤◌, length, MatchBool, MatchOption, nat_lt, true, false};
ghost use Rattle.parsing.specs.Grammar.{Productive};
ghost use Rattle.grammar.specs.Finding.{FirstOf};
ghost use Rattle.grammar.specs.Holding.{grammar_from};
ghost use Rattle.grammar.specs.Lists.{items};
ghost use Rattle.grammar.specs.Marking.{marked, Ready, Sound, Within, Closed, unmarked};

use crate::header::Header;
use crate::rule::Rule;

// Rows of marks and not sets of symbols: those stand on this crate.
impl Rule {
    /// Whether all right symbols are marked.
    fn is_ready(&self, marks: &[bool; 256]) -> bool
        ensures { MatchBool result (Ready marks.now (items self.now.right)) (Ready marks.now (items self.now.right) → ⊥) }
    {
        let right = self.right.as_slice();
        right.iter().all(|symbol| marks[usize::from(*symbol)])
    }
}

/// Marks the left symbol of each rule whose right symbols are all marked, and says whether a mark was added.
fn spread(rules: &[Rule], marks: &mut [bool; 256]) -> bool
    ensures within { Within marks.old marks.new }
    ensures sound { (T N : ℕ) → Sound (grammar_from T N rules.now) marks.old → Sound (grammar_from T N rules.now) marks.new }
    ensures cases { MatchBool result (unmarked marks.new 256 < unmarked marks.old 256) ((marks.new ≡ marks.old) × Closed rules.now marks.new (length rules.now)) }
{
    let mut added = false;
    for rule in rules {
        let left = usize::from(rule.left);
        if !marks[left] && rule.is_ready(marks) {
            marks[left] = true;
            added = true;
        }
    }
    added
}

/// Marks on the terminals alone.
fn mark_terminals(header: Header) -> [bool; 256]
    ensures { (X : ℕ) → marked result X ≡ nat_lt X header.terminals }
{
    let terminals = usize::from(header.terminals);
    let mut marks = [false; 256];
    marks[..terminals].fill(true);
    marks
}

/// The marks of the symbols that derive some list of terminals.
fn productive(rules: &[Rule], header: Header) -> [bool; 256]
    ensures { (N X : ℕ) → MatchBool (marked result X) (Productive (grammar_from header.terminals N rules.now) X) (Productive (grammar_from header.terminals N rules.now) X → ⊥) }
{
    let mut marks = mark_terminals(header);
    while spread(rules, &mut marks) {}
    marks
}

/// The first nonterminal that is not marked.
fn first_unmarked(marks: &[bool; 256], header: Header) -> Option<usize>
    ensures { MatchOption result ((X : ℕ) → header.terminals ≤ X → X < header.terminals + header.nonterminals → marked marks.now X ≡ true) (λ X. (header.terminals ≤ X) × (X < header.terminals + header.nonterminals) × (marked marks.now X ≡ false) × ((Y : ℕ) → header.terminals ≤ Y → Y < X → marked marks.now Y ≡ true)) }
{
    (usize::from(header.terminals)..usize::from(header.symbols())).find(|symbol| !marks[*symbol])
}

/// The first nonterminal that derives no list of terminals.
pub(crate) fn first_unproductive(rules: &[Rule], header: Header) -> Option<usize>
    ensures { FirstOf header.terminals (header.terminals + header.nonterminals) (λ X. Productive (grammar_from header.terminals header.nonterminals rules.now) X → ⊥) result }
{
    first_unmarked(&productive(rules, header), header)
}
