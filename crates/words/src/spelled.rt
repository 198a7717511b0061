//! What a run of bytes spells: digits, or a terminal.
ghost use Rattle.std.specs.Prelude.{◌≡◌, ◌<◌, ◌≤◌, ◌&&◌, true, length, nat_lt};
ghost use Rattle.std.specs.Str.Parse.{digits_value};
ghost use Rattle.grammar_format.specs.Keeping.{spelling_of};
ghost use Rattle.grammar.specs.Meaning.{sheet};
ghost use Rattle.words.specs.Texts.{all_digits, same_spelling, spelled_terminal};

use crate::kind::is_digit;
use grammar::Grammar;

// Not `u8::is_ascii_digit`: one match on a character tells what a byte is.
/// Whether all bytes are digits.
pub(crate) fn are_digits(bytes: &[u8]) -> bool
    ensures { result ≡ all_digits bytes.now }
{
    bytes.iter().all(|byte| is_digit(*byte))
}

/// The amount that one to five digits write.
pub(crate) fn amount(digits: &[u8]) -> u32
    requires decimal { all_digits digits.now ≡ true }
    requires few { length digits.now ≤ 5 }
    ensures { result ≡ digits_value 10 digits.now }
{
    // Not `parse`: the library reads numbers from text, and these are bytes.
    digits
        .iter()
        .fold(0, |amount, digit| 10 * amount + u32::from(digit - b'0'))
}

/// Whether the terminal is spelled with these bytes.
fn spells(grammar: &Grammar, terminal: u8, bytes: &[u8]) -> bool
    ensures { result ≡ (nat_lt terminal (sheet grammar.now).grammar.terminals && same_spelling (spelling_of (sheet grammar.now) terminal) bytes.now) }
{
    grammar
        .spelling(usize::from(terminal))
        .is_some_and(|spelling| spelling == bytes)
}

/// The terminal, other than the amount, whose spelling the bytes are.
pub(crate) fn terminal_of(grammar: &Grammar, bytes: &[u8]) -> Option<u8>
    ensures { result ≡ spelled_terminal (sheet grammar.now) bytes.now }
{
    (1..grammar.terminals()).find(|terminal| spells(grammar, *terminal, bytes))
}
