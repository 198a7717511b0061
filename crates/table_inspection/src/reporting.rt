//! The report of a table sheet for a grammar, and of both sheets.
ghost use Rattle.std.specs.Prelude.{◌≡◌, ℕ, List, length, IfOk, string_bytes};
ghost use Rattle.grammar.specs.Meaning.{sheet as sheet_of, meaning};
ghost use Rattle.built_states.specs.Meaning.{Builds};
ghost use Rattle.built_states.specs.Writing.{sheet as built_sheet};
ghost use Rattle.table_format.specs.Breaches.{Checked};
ghost use Rattle.table_format.specs.Walks.{passes};
ghost use Rattle.table_inspection.specs.Reports.{verdict_text, TableReport, FullReport};

use crate::verdict::TableVerdict;
use built_states::BuiltStates;
use grammar::Grammar;
use inspection::report;
use std::alloc::{AllocError, Global};
use table_explanation::TableExplanation;
use tables::{Finding, Table};

/// The table sheet of built states.
fn written(heap: Global, states: &BuiltStates) -> Result<Vec<u8>, AllocError>
    ensures { IfOk result (λ v. (v.items ≡ built_sheet states.now) × Checked (meaning states.now.grammar) (built_sheet states.now) passes) }
{
    let mut room = vec![in heap; 0u8; states.sheet_len()]?;
    states.write(room.as_mut_slice()).unwrap();
    Ok(room)
}

/// The verdict on states that were built from a grammar.
fn built_listed<'a>(
    heap: Global,
    grammar: &'a Grammar,
    states: &BuiltStates,
) -> Result<TableVerdict<'a>, AllocError>
    requires { Builds grammar.now states.now }
    ensures { IfOk result (λ verdict. (b : List ℕ) → length b ≡ 0 → TableReport (sheet_of grammar.now) b (verdict_text verdict)) }
{
    let sheet = written(heap, states)?;
    let table = Table::check(grammar, sheet.as_slice()).unwrap();
    Ok(TableVerdict::Passing {
        grammar,
        table,
        how: "built and written",
        size: sheet.len(),
    })
}

/// The verdict where there is no sheet: on the states that are built from the grammar.
fn built<'a>(
    heap: Global,
    grammar: &'a Grammar,
    sheet: &'a [u8],
) -> Result<TableVerdict<'a>, AllocError>
    requires { length sheet.now ≡ 0 }
    ensures { IfOk result (λ verdict. TableReport (sheet_of grammar.now) sheet.now (verdict_text verdict)) }
{
    match BuiltStates::build(grammar) {
        Ok(states) => built_listed(heap, grammar, &states),
        Err(fault) => {
            let finding = Finding { fault, row: None };
            Ok(TableVerdict::Refused(TableExplanation::of(grammar, sheet, finding)))
        }
    }
}

/// What is told of a table sheet for a grammar. Without bytes it is told of the states that are built from the grammar.
pub fn table_report(heap: Global, grammar: &Grammar, sheet: &[u8]) -> Result<String, AllocError>
    ensures { IfOk result (λ text. TableReport (sheet_of grammar.now) sheet.now (string_bytes text)) }
{
    if sheet.is_empty() {
        let verdict = built(heap, grammar, sheet)?;
        return verdict.to_string(heap);
    }
    TableVerdict::supplied(grammar, sheet).to_string(heap)
}

/// What `inspect_tables` prints: the report of a grammar sheet and, where that is not refused, the report of a table sheet for it.
pub fn full_report(
    heap: Global,
    grammar_sheet: &[u8],
    table_sheet: &[u8],
) -> Result<String, AllocError>
    ensures { IfOk result (λ text. FullReport grammar_sheet.now table_sheet.now (string_bytes text)) }
{
    let first = report(heap, grammar_sheet)?;
    match Grammar::read(grammar_sheet) {
        Ok(grammar) => {
            let second = table_report(heap, &grammar, table_sheet)?;
            format!(in heap; "{first}{second}")
        }
        Err(_) => Ok(first),
    }
}
