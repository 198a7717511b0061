//! Reading the rules of a grammar sheet.
ghost use Rattle.std.specs.Prelude.{◌≡◌, ℕ, ◌+◌, ◌<◌, ◌≤◌, ◌≢◌, length, MatchBool, MatchOption, MatchResult, slice_index};
ghost use Rattle.grammar_format.specs.Breaches.{IllFormed};
ghost use Rattle.grammar.specs.Heads.{Headed};
ghost use Rattle.grammar.specs.Holding.{rule_block};
ghost use Rattle.grammar.specs.Lists.{items};
ghost use Rattle.grammar.specs.Progress.{RulesRead};
ghost use Rattle.grammar.specs.Refusals.{FirstFault};

use crate::fault::GrammarFault;
use crate::few::Few;
use crate::header::{Header, rules_end};
use crate::rule::Rule;

/// Whether all bytes are symbols, of which there are so many.
fn are_symbols(bytes: &[u8], symbols: u8) -> bool
    ensures { MatchBool result ((d : ℕ) → d < length bytes.now → slice_index bytes.now d < symbols) ((d : ℕ) × (d < length bytes.now) × (symbols ≤ slice_index bytes.now d)) }
{
    bytes.iter().all(|byte| *byte < symbols)
}

/// Whether all bytes are 255.
fn are_blank(bytes: &[u8]) -> bool
    ensures { MatchBool result ((d : ℕ) → d < length bytes.now → slice_index bytes.now d ≡ 255) ((d : ℕ) × (d < length bytes.now) × (slice_index bytes.now d ≢ 255)) }
{
    bytes.iter().all(|byte| *byte == 255)
}

impl Rule {
    /// The rule that nine bytes say, unless they are ill-formed.
    fn read(block: &[u8; 9], header: Header) -> Option<Rule>
        ensures { MatchOption result (IllFormed header.terminals (header.terminals + header.nonterminals) block.now) (λ p. (rule_block p ≡ block.now) × (IllFormed header.terminals (header.terminals + header.nonterminals) block.now → ⊥)) }
    {
        let left = block[0];
        let length = block[1];
        let symbols = header.symbols();
        if left < header.terminals || left >= symbols || length > 7 {
            return None;
        }
        let (right, past) = block[2..].split_at(usize::from(length));
        if !are_symbols(right, symbols) || !are_blank(past) {
            return None;
        }
        Some(Rule {
            left,
            right: Few::of(right, 255),
        })
    }
}

/// The rules of the sheet, in their order.
pub(crate) fn read_rules(sheet: &[u8], header: Header) -> Result<Few<Rule, 64>, GrammarFault>
    requires { Headed sheet.now header }
    ensures { MatchResult result (λ ps. RulesRead sheet.now (items ps)) (λ e. FirstFault sheet.now e) }
{
    let blank = Rule {
        left: 0,
        right: Few::over([255; 7]),
    };
    let mut rules = Few::over([blank; 64]);
    let (blocks, _) = sheet[12..usize::from(rules_end(header.rules))].as_chunks();
    for (r, block) in blocks.iter().enumerate() {
        let rule = Rule::read(block, header).ok_or(GrammarFault::RuleForm { rule: r })?;
        rules.push(rule);
    }
    Ok(rules)
}
