//! Reading the spellings of a grammar sheet.
ghost use Rattle.std.specs.Prelude.{◌≡◌, ℕ, ◌+◌, ◌<◌, ◌≤◌, length, MatchBool, MatchOption, MatchResult, slice_index};
ghost use Rattle.grammar_format.specs.Keeping.{Letter, Digit, AllDigits};
ghost use Rattle.grammar_format.specs.Fields.{first_spelling, behind_spelling};
ghost use Rattle.grammar_format.specs.Breaches.{IllSpelled, Clean};
ghost use Rattle.grammar.specs.Heads.{Headed};
ghost use Rattle.grammar.specs.Lists.{items};
ghost use Rattle.grammar.specs.Progress.{SpellingsRead};
ghost use Rattle.grammar.specs.Refusals.{FirstFault};

use crate::fault::GrammarFault;
use crate::few::Few;
use crate::header::{Header, rules_end};
use crate::spelling::Spelling;

/// One spelling, and the sheet that remains behind it; none where the sheet ends before.
fn read_spelling(sheet: &[u8]) -> Option<(&[u8], &[u8])>
    ensures { MatchOption result (length sheet.now ≤ slice_index sheet.now 0) (λ p. (slice_index sheet.now 0 < length sheet.now) × (p.0.now ≡ first_spelling sheet.now) × (p.1.now ≡ behind_spelling sheet.now)) }
{
    let (length, rest) = sheet.split_first()?;
    rest.split_at_checked(usize::from(*length))
}

/// Whether the byte may stand in a spelling: a visible character other than `#`.
fn is_letter(byte: u8) -> bool
    ensures { MatchBool result (Letter byte) (Letter byte → ⊥) }
{
    byte.is_ascii_graphic() && byte != b'#'
}

/// Whether all bytes may stand in a spelling.
fn are_letters(bytes: &[u8]) -> bool
    ensures { MatchBool result ((k : ℕ) → k < length bytes.now → Letter (slice_index bytes.now k)) ((k : ℕ) × (k < length bytes.now) × (Letter (slice_index bytes.now k) → ⊥)) }
{
    bytes.iter().all(|byte| is_letter(*byte))
}

/// Whether the bytes may spell the terminal.
fn may_spell(bytes: &[u8], terminal: usize) -> bool
    ensures { MatchBool result (IllSpelled terminal bytes.now → ⊥) (IllSpelled terminal bytes.now) }
{
    if terminal == 0 {
        return bytes.is_empty();
    }
    if bytes.is_empty() || bytes.len() > 12 || !are_letters(bytes) {
        return false;
    }
    !bytes.iter().all(u8::is_ascii_digit)
}

/// The spellings of the sheet, one for each terminal.
pub(crate) fn read_spellings(
    sheet: &[u8],
    header: Header,
) -> Result<Few<Spelling, 40>, GrammarFault>
    requires headed { Headed sheet.now header }
    requires clean { Clean sheet.now 15 }
    ensures { MatchResult result (λ ws. SpellingsRead sheet.now (items ws)) (λ e. FirstFault sheet.now e) }
{
    let terminals = usize::from(header.terminals);
    let blank: Spelling = Few::over([0; 12]);
    let mut spellings = Few::over([blank; 40]);
    let mut rest = &sheet[usize::from(rules_end(header.rules))..];
    // By number: each spelling begins where the one before it ends.
    for t in 0..terminals {
        let (bytes, remains) = read_spelling(rest).ok_or(GrammarFault::SpellingForm {
            terminal: t,
        })?;
        if !may_spell(bytes, t) {
            return Err(GrammarFault::SpellingForm { terminal: t });
        }
        spellings.push(Few::of(bytes, 0));
        rest = remains;
    }
    if !rest.is_empty() {
        return Err(GrammarFault::SpellingForm {
            terminal: terminals,
        });
    }
    Ok(spellings)
}
