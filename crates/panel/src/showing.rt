//! The answer for a recipe, in lines.
ghost use Rattle.std.specs.Prelude.{◌≡◌, ◌<◌, ◌≤◌, length, MatchResult, IfOk, string_bytes};
ghost use Rattle.grammar.specs.Meaning.{Reads};
ghost use Rattle.panel.specs.Answers.{outcome};
ghost use Rattle.panel.specs.Faults.{too_long, outcome_of};
ghost use Rattle.panel.specs.Lines.{refused, lines};
ghost use Rattle.panel.specs.Outcomes.{Short, Refuses, TextOutcome, KeyOutcome, Shows};

use crate::answer::Answer;
use crate::fault::{Fault, Input};
use crate::sources::answer_by_table;
use grammar::Grammar;
use std::alloc::{AllocError, Global};
use words::{KeyFeed, TextFeed};

/// How many bytes of an input are read.
const BYTES: usize = 40_000;

/// Refuses an input that is too long.
fn check_length(input: Input, bytes: &[u8]) -> Result<(), Fault>
    ensures { MatchResult result (λ _. length bytes.now ≤ 40000) (λ f. (40000 < length bytes.now) × (outcome_of f ≡ refused (too_long input))) }
{
    if bytes.len() > BYTES {
        return Err(Fault::TooLong(input));
    }
    Ok(())
}

/// The grammar, unless an input is too long or the sheet is refused.
fn grammar_of(grammar_sheet: &[u8], table_sheet: &[u8], words: &[u8]) -> Result<Grammar, Fault>
    ensures { MatchResult result (λ g. Short grammar_sheet.now table_sheet.now words.now × Reads grammar_sheet.now g) (λ f. Refuses grammar_sheet.now table_sheet.now words.now (outcome_of f)) }
{
    check_length(Input::Grammar, grammar_sheet)?;
    check_length(Input::Table, table_sheet)?;
    check_length(Input::Words, words)?;
    Ok(Grammar::read(grammar_sheet)?)
}

/// The answer for the text of a recipe, read by a grammar sheet and a table sheet. Without bytes of a table sheet the states are built.
pub fn answer_text(grammar_sheet: &[u8], table_sheet: &[u8], text: &[u8]) -> Result<Answer, Fault>
    ensures { TextOutcome grammar_sheet.now table_sheet.now text.now (outcome result) }
{
    let grammar = grammar_of(grammar_sheet, table_sheet, text)?;
    let mut feed = TextFeed::new(&grammar, text);
    answer_by_table(&grammar, table_sheet, &mut feed)
}

/// The same for a record of pressed keys.
pub fn answer_keys(grammar_sheet: &[u8], table_sheet: &[u8], keys: &[u8]) -> Result<Answer, Fault>
    ensures { KeyOutcome grammar_sheet.now table_sheet.now keys.now (outcome result) }
{
    let grammar = grammar_of(grammar_sheet, table_sheet, keys)?;
    let mut feed = KeyFeed::new(&grammar, keys);
    answer_by_table(&grammar, table_sheet, &mut feed)
}

/// The lines of an answer, or of the fault.
fn shown(heap: Global, answer: Result<Answer, Fault>) -> Result<String, AllocError>
    ensures { IfOk result (λ text. string_bytes text ≡ lines (outcome answer)) }
{
    match answer {
        Ok(answer) => answer.to_string(heap),
        Err(fault) => fault.to_string(heap),
    }
}

/// What `sheet` prints: the lines of the answer for a text.
pub fn read_text(
    heap: Global,
    grammar_sheet: &[u8],
    table_sheet: &[u8],
    text: &[u8],
) -> Result<String, AllocError>
    ensures { IfOk result (λ shown. Shows (TextOutcome grammar_sheet.now table_sheet.now text.now) (string_bytes shown)) }
{
    shown(heap, answer_text(grammar_sheet, table_sheet, text))
}

/// What `key` prints: the lines of the answer for a record of pressed keys.
pub fn read_keys(
    heap: Global,
    grammar_sheet: &[u8],
    table_sheet: &[u8],
    keys: &[u8],
) -> Result<String, AllocError>
    ensures { IfOk result (λ shown. Shows (KeyOutcome grammar_sheet.now table_sheet.now keys.now) (string_bytes shown)) }
{
    shown(heap, answer_keys(grammar_sheet, table_sheet, keys))
}
