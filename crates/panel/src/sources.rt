//! The states that a feed is read over.
ghost use Rattle.grammar.specs.Meaning.{meaning};
ghost use Rattle.panel.specs.Answers.{outcome};
ghost use Rattle.panel.specs.Outcomes.{ByTable};

use crate::answer::Answer;
use crate::fault::Fault;
use crate::reading::answer;
use built_states::BuiltStates;
use grammar::Grammar;
use tables::Table;
use words::WordFeed;

/// Reads a feed over the states of a table sheet; without bytes, over the states that are built from the grammar.
pub(crate) fn answer_by_table<F: WordFeed>(
    grammar: &Grammar,
    table_sheet: &[u8],
    feed: &mut F,
) -> Result<Answer, Fault>
    ensures { ByTable (meaning grammar.now) table_sheet.now (F.coming feed.old) (outcome result) }
{
    if table_sheet.is_empty() {
        answer(BuiltStates::build(grammar)?, feed)
    } else {
        answer(Table::check(grammar, table_sheet)?, feed)
    }
}
