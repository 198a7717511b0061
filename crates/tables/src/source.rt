//! A checked table as a source of states.
ghost use Rattle.std.specs.Prelude.{◌≡◌};
ghost use Rattle.rows.specs.Rows.{RowAt};
ghost use Rattle.tables.specs.Meaning.{bytes, source};
ghost use Rattle.tables.specs.Held.{sourced};

use crate::claim::Claim;
use crate::table::Table;
use rows::Row;
use states::StateSource;

#[tactic(auto, unfolding(crate::specs::Meaning::source, table_format::specs::Tables::source_of))]
impl StateSource for Table {
    ghost meaning = { source };

    ghost lawful = { λ t. sourced t };

    // Each source passes these six on by itself: the trait asks for a meaning, not for a grammar that is held.
    fn terminals(&self) -> u8 {
        self.grammar.terminals()
    }

    fn nonterminals(&self) -> u8 {
        self.grammar.nonterminals()
    }

    fn rules(&self) -> u8 {
        self.grammar.rules()
    }

    fn left(&self, rule: usize) -> u8 {
        self.grammar.left(rule)
    }

    fn length(&self, rule: usize) -> u8 {
        self.grammar.length(rule)
    }

    fn right(&self, rule: usize, place: usize) -> u8 {
        self.grammar.right(rule, place)
    }

    fn states(&self) -> u8 {
        self.header.states
    }

    fn first(&self) -> u8 {
        0
    }

    fn next(&self, state: u8, symbol: u8) -> Option<u8> {
        let claim = self.claim();
        if state >= claim.header.states || symbol >= claim.header.symbols {
            return None;
        }
        claim.step(state, symbol)
    }

    fn done(&self, state: u8, rule: u8) -> bool {
        let claim = self.claim();
        state < claim.header.states && rule < claim.header.rules && claim.done(state, rule)
    }
}

impl Table {
    /// The claim of the sheet that the table holds.
    fn claim(&self) -> Claim<'_>
        ensures header { result.header ≡ self.now.header }
        ensures sheet { result.sheet.now ≡ bytes self.now }
    {
        Claim {
            grammar: &self.grammar,
            sheet: self.sheet.as_slice(),
            header: self.header,
        }
    }

    /// The row of a state; none where there is no such state.
    #[tactic(auto, using(std::proofs::lemmas::Grind::common_steps, table_format::proofs::Sources::row_is), unfolding(crate::specs::Meaning::source, table_format::specs::Tables::source_of, crate::specs::Lists::row_in))]
    pub fn row(&self, state: u8) -> Option<Row>
        ensures { RowAt (source self.now) state result }
    {
        self.rows[..usize::from(self.states())]
            .get(usize::from(state))
            .copied()
    }
}
