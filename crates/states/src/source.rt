//! A source of states, known by its meaning alone.
ghost use Rattle.std.specs.Prelude.{◌≡◌};
ghost use Rattle.parsing.specs.Grammar.{rule_count};
ghost use Rattle.parsing.specs.Items.{Source};
ghost use Rattle.grammar.specs.Questions.{left_side, right_length, right_symbol};
ghost use Rattle.states.specs.Sources.{Sourced};

/// States of a grammar, of which those that steps reach from the first are its LR(0) item sets.
/// Questions alter nothing, and are answered for all arguments.
pub trait StateSource {
    ghost meaning: { Self → Source };

    /// How many terminals the grammar has.
    fn terminals(&self) -> u8
        ensures { result ≡ (meaning self.now).grammar.terminals };

    /// How many nonterminals the grammar has.
    fn nonterminals(&self) -> u8
        ensures { result ≡ (meaning self.now).grammar.nonterminals };

    /// How many rules the grammar has.
    fn rules(&self) -> u8
        ensures { result ≡ rule_count (meaning self.now).grammar };

    // 255 and not none: what a grammar and a source answer outside is laid down.
    /// The left symbol of a rule; 255 outside.
    fn left(&self, rule: usize) -> u8
        ensures { result ≡ left_side (meaning self.now).grammar rule };

    /// How many right symbols a rule has; 255 outside.
    fn length(&self, rule: usize) -> u8
        ensures { result ≡ right_length (meaning self.now).grammar rule };

    /// The right symbol of a rule at a place; 255 outside.
    fn right(&self, rule: usize, place: usize) -> u8
        ensures { result ≡ right_symbol (meaning self.now).grammar rule place };

    /// How many states there are, 1 to 255.
    fn states(&self) -> u8
        ensures { result ≡ (meaning self.now).states };

    /// The state whose row is the completed item (0, 0).
    fn first(&self) -> u8
        ensures { result ≡ (meaning self.now).first };

    /// The step of a state by a symbol; none where there is none, and outside.
    fn next(&self, state: u8, symbol: u8) -> Option<u8>
        ensures { result ≡ (meaning self.now).next state symbol };

    /// Whether the row of a state has a rule wholly passed; no outside.
    fn done(&self, state: u8, rule: u8) -> bool
        ensures { result ≡ (meaning self.now).done state rule };

    ghost lawful: { (x : Self) → Sourced (meaning x) };
}
