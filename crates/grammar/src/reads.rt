//! Reading a grammar sheet.
ghost use Rattle.std.specs.Prelude.{◌≡◌, MatchResult};
ghost use Rattle.grammar.specs.Progress.{PartsRead};
ghost use Rattle.grammar.specs.Meaning.{Reads};
ghost use Rattle.grammar.specs.Refusals.{FirstFault, Refused};

use crate::fault::GrammarFault;
use crate::goal::goal_misused;
use crate::grammar::Grammar;
use crate::header::Header;
use crate::marks::first_unproductive;
use crate::parts::Parts;
use crate::repeats::first_repeated;
use crate::rules::read_rules;
use crate::spellings::read_spellings;

/// The parts of a sheet, each of the right form by itself and beside the others.
fn read_parts(sheet: &[u8]) -> Result<Parts, GrammarFault>
    ensures { MatchResult result (λ p. PartsRead sheet.now p) (λ e. FirstFault sheet.now e) }
{
    let header = Header::read(sheet)?;
    let rules = read_rules(sheet, header)?;
    if let Some(rule) = goal_misused(rules.as_slice(), header.terminals) {
        return Err(GrammarFault::GoalRule { rule });
    }
    let spellings = read_spellings(sheet, header)?;
    if let Some(terminal) = first_repeated(spellings.as_slice()) {
        return Err(GrammarFault::SpellingRepeated { terminal });
    }
    Ok(Parts {
        header,
        rules,
        spellings,
    })
}

impl Grammar {
    /// The grammar of a sheet that keeps all the rules; of any other sheet, the first fault in the order of the refusals, at its lowest
    /// place.
    pub fn read(sheet: &[u8]) -> Result<Grammar, GrammarFault>
        ensures { MatchResult result (λ g. Reads sheet.now g) (λ e. Refused sheet.now e) }
    {
        let Parts {
            header,
            rules,
            spellings,
        } = read_parts(sheet)?;
        if let Some(nonterminal) = first_unproductive(rules.as_slice(), header) {
            return Err(GrammarFault::Unproductive { nonterminal });
        }
        Ok(Grammar {
            nonterminals: header.nonterminals,
            rules,
            spellings,
        })
    }
}
