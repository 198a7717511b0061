//! The goal stands in rule 0, on the left, and nowhere else.
ghost use Rattle.std.specs.Prelude.{◌≡◌, ℕ, ◌<◌, length, MatchBool};
ghost use Rattle.grammar_format.specs.Breaches.{GoalMisused};
ghost use Rattle.grammar.specs.Finding.{FirstOf};
ghost use Rattle.grammar.specs.Holding.{block_at, rule_block};

use crate::rule::Rule;

impl Rule {
    /// Whether the rule, which is rule r, misuses the goal.
    fn misuses(&self, r: usize, goal: u8) -> bool
        ensures { MatchBool result (GoalMisused goal r (rule_block self.now)) (GoalMisused goal r (rule_block self.now) → ⊥) }
    {
        if r > 0 {
            return self.left == goal || self.right.as_slice().contains(&goal);
        }
        let [start] = self.right.as_slice() else {
            return true;
        };
        self.left != goal || *start <= goal
    }
}

/// The first rule that misuses the goal.
pub(crate) fn goal_misused(rules: &[Rule], goal: u8) -> Option<usize>
    ensures { FirstOf 0 (length rules.now) (λ r. GoalMisused goal r (block_at rules.now r)) result }
{
    // Not `find`: from a call within a closure the proof does not learn that the goal is misused.
    for (r, rule) in rules.iter().enumerate() {
        if rule.misuses(r, goal) {
            return Some(r);
        }
    }
    None
}
