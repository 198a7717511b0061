//! Reading the header of a grammar sheet.
ghost use Rattle.std.specs.Prelude.{◌≡◌, ◌+◌, ◌≤◌, MatchResult};
ghost use Rattle.grammar.specs.Heads.{Outside, Headed};
ghost use Rattle.grammar.specs.Refusals.{FirstFault, of_grammar, refusal};

use crate::fault::GrammarFault;
use crate::header::{Header, rules_end};
use sheet_head::read_head;

/// A count, which lies in its range.
fn count(number: u16, low: u8, high: u8) -> Result<u8, GrammarFault>
    ensures { MatchResult result (λ n. (n ≡ number) × (low ≤ n) × (n ≤ high)) (λ e. (refusal e ≡ of_grammar 11 0) × Outside number low high) }
{
    match u8::try_from(number) {
        Ok(n) if n >= low && n <= high => Ok(n),
        _ => Err(GrammarFault::CountRange),
    }
}

impl Header {
    /// The counts that the sheet tells, or what is wrong with its header.
    pub(crate) fn read(sheet: &[u8]) -> Result<Header, GrammarFault>
        ensures { MatchResult result (λ h. Headed sheet.now h) (λ e. FirstFault sheet.now e) }
    {
        let [
            length,
            terminals,
            nonterminals,
            rules,
            rules_at,
            spellings_at,
        ] = read_head(sheet).ok_or(GrammarFault::WholeLength)?;
        if usize::from(length) != sheet.len() {
            return Err(GrammarFault::WholeLength);
        }
        let terminals = count(terminals, 1, 40)?;
        let nonterminals = count(nonterminals, 2, 24)?;
        let rules = count(rules, 2, 64)?;
        let end = rules_end(rules);
        if rules_at != 12 || spellings_at != end || length < end {
            return Err(GrammarFault::Offset);
        }
        Ok(Header {
            terminals,
            nonterminals,
            rules,
        })
    }

    /// How many symbols there are.
    pub(crate) fn symbols(self) -> u8
        ensures { result ≡ self.terminals + self.nonterminals }
    {
        self.terminals + self.nonterminals
    }
}
