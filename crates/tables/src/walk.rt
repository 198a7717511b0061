//! The walk: trying the steps and the marks of the known states.
ghost use Rattle.std.specs.Prelude.{◌+◌, ◌<◌, length, IfErr, MatchResult};
ghost use Rattle.parsing.specs.Grammar.{rule_count};
ghost use Rattle.grammar.specs.Meaning.{meaning};
ghost use Rattle.table_format.specs.ItemSets.{symbols as total};
ghost use Rattle.table_format.specs.Sheets.{table_of};
ghost use Rattle.table_format.specs.Walks.{Walk};
ghost use Rattle.tables.specs.Lists.{listed};
ghost use Rattle.states.specs.Refusals.{outcome};
ghost use Rattle.tables.specs.Trying.{Along, Halts, InState, TriedIn, Tries};

use crate::claim::Claim;
use crate::finding::Finding;
use crate::known::{Known, KnownStates};
use rows::Row;
use states::TableFault;

impl Claim<'_> {
    // The known states and the place stay apart: the states grow between two tries.
    /// Tries a symbol of the known state in a place: the state that becomes known by the step, if one does.
    fn try_step(
        &self,
        known: &KnownStates,
        place: usize,
        symbol: u8,
    ) -> Result<Option<Known>, TableFault>
        requires inside { place < length (listed known.now) }
        requires symbol { symbol < total (meaning self.now.grammar.now) }
        requires come { Along self.now (listed known.now) place symbol 0 }
        ensures tries { Tries self.now (listed known.now) place symbol result }
        ensures in_state { TriedIn (listed known.now) place result }
    {
        let Known { state, row } = known.at(place);
        let wanted = row.step(self.grammar, usize::from(symbol));
        match (wanted, self.step(state, symbol)) {
            (None, None) => Ok(None),
            (None, Some(_)) => Err(TableFault::StepWhereNone { state, symbol }),
            (Some(_), None) => Err(TableFault::StepLacking { state, symbol }),
            (Some(row), Some(next)) => match known.place_of(next) {
                Some(target) if known.at(target).row.same(&row) => Ok(None),
                Some(_) => Err(TableFault::OtherRow { state, symbol }),
                None if known.knows_row(&row) => Err(TableFault::KnownRow { state, symbol }),
                None => Ok(Some(Known { state: next, row })),
            },
        }
    }

    /// Tries the mark of a rule in the known state in a place.
    fn try_mark(&self, known: &KnownStates, place: usize, rule: u8) -> Result<(), TableFault>
        requires inside { place < length (listed known.now) }
        requires rule { rule < rule_count (meaning self.now.grammar.now) }
        requires come { Along self.now (listed known.now) place (total (meaning self.now.grammar.now)) rule }
        ensures cases { MatchResult result (λ _. Along self.now (listed known.now) place (total (meaning self.now.grammar.now)) (rule + 1)) (λ f. Walk (meaning self.now.grammar.now) (table_of self.now.sheet.now) (outcome f)) }
        ensures in_state { IfErr result (InState (listed known.now) place) }
    {
        let Known { state, row } = known.at(place);
        if self.done(state, rule) == row.is_done(self.grammar, usize::from(rule)) {
            Ok(())
        } else {
            Err(TableFault::MarkWrong { state, rule })
        }
    }

    /// All that becomes known when every known state is tried, or the first fault.
    pub(crate) fn walk(&self) -> Result<KnownStates, Finding>
        ensures { MatchResult result (λ ks. Along self.now (listed ks) (length (listed ks)) 0 0) (λ e. Halts (meaning self.now.grammar.now) (table_of self.now.sheet.now) e) }
    {
        let mut known = KnownStates::begin(Row::first(self.grammar));
        let mut place = 0;
        // By label: a form that is laid down (docs/DECISIONS.md).
        let fault = 'walk: {
            // By place: the known states grow on the way.
            while place < known.len() {
                for symbol in 0..self.header.symbols {
                    let found = match self.try_step(&known, place, symbol) {
                        Ok(found) => found,
                        Err(fault) => break 'walk fault,
                    };
                    if let Some(found) = found {
                        known.push(found);
                    }
                }
                for rule in 0..self.header.rules {
                    if let Err(fault) = self.try_mark(&known, place, rule) {
                        break 'walk fault;
                    }
                }
                place += 1;
            }
            return Ok(known);
        };
        let row = Some(known.at(place).row);
        Err(Finding { fault, row })
    }
}
