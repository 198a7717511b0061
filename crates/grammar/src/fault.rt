//! What is wrong with a grammar sheet, or with the room to write one.
ghost use Rattle.std.specs.Prelude.{◌≡◌};
ghost use Rattle.grammar.specs.Refusals.{refusal as told};

use crate::refusal::{Layer, Refusal};

/// The faults of grammar sheets, in the order in which they are looked for.
#[derive(Clone, Copy, PartialEq, Eq, Debug)]
pub enum GrammarFault {
    /// Under twelve bytes, or the whole length is not that of the sheet.
    WholeLength,
    /// A count of terminals, nonterminals or rules is out of its range.
    CountRange,
    /// An offset is wrong, or the rules run past the end.
    Offset,
    /// The rule has not the form of a rule.
    RuleForm { rule: usize },
    /// Rule 0 is not the goal's, or the goal stands in another rule.
    GoalRule { rule: usize },
    /// The spelling is no spelling; at the number of terminals, bytes are left over.
    SpellingForm { terminal: usize },
    /// The terminal is spelled like an earlier one.
    SpellingRepeated { terminal: usize },
    /// The nonterminal derives no list of terminals.
    Unproductive { nonterminal: usize },
    /// The room to write the sheet is too short.
    RoomShort { need: usize },
}

impl GrammarFault {
    /// The refusal that the fault is shown as.
    pub fn refusal(&self) -> Refusal
        ensures { result ≡ told self.now }
    {
        Refusal::from(*self)
    }
}

impl From<GrammarFault> for Refusal {
    ghost from_gives = { λ fault refusal. refusal ≡ told fault };

    fn from(fault: GrammarFault) -> Refusal {
        let (number, layer, first) = match fault {
            GrammarFault::WholeLength => (10, Layer::Grammar, 0),
            GrammarFault::CountRange => (11, Layer::Grammar, 0),
            GrammarFault::Offset => (12, Layer::Grammar, 0),
            GrammarFault::RuleForm { rule } => (13, Layer::Grammar, rule),
            GrammarFault::GoalRule { rule } => (14, Layer::Grammar, rule),
            GrammarFault::SpellingForm { terminal } => (15, Layer::Grammar, terminal),
            GrammarFault::SpellingRepeated { terminal } => (16, Layer::Grammar, terminal),
            GrammarFault::Unproductive { nonterminal } => (17, Layer::Grammar, nonterminal),
            GrammarFault::RoomShort { need } => (31, Layer::Table, need),
        };
        Refusal {
            number,
            layer,
            first,
            second: 0,
        }
    }
}
