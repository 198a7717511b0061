//! Building the states: every step of every state, in rising order.
ghost use Rattle.std.specs.Prelude.{◌≡◌, ℕ, ◌+◌, ◌<◌, ◌≤◌, MatchBool, MatchResult, ◌≢◌};
ghost use Rattle.grammar.specs.Meaning.{meaning};
ghost use Rattle.table_format.specs.ItemSets.{symbols as total};
ghost use Rattle.built_states.specs.Built.{row_items, TooMany};
ghost use Rattle.built_states.specs.Building.{CompletedAt, Come};
ghost use Rattle.built_states.specs.Meaning.{Builds};

use crate::building::Building;
use crate::built::BuiltStates;
use grammar::Grammar;
use rows::Row;
use states::TableFault;

impl Building {
    /// The first state alone.
    fn begin(grammar: &Grammar) -> Building
        ensures { Come (meaning grammar.now) result 0 0 }
    {
        Building {
            count: 1,
            rows: [Row::first(grammar); 256],
            steps: [[None; 64]; 255],
        }
    }

    /// The first place whose row is that of the place `slot`.
    fn place_of(&self, slot: usize) -> usize
        requires { slot < 256 }
        ensures within { result ≤ slot }
        ensures same { row_items self.now.rows result ≡ row_items self.now.rows slot }
        ensures first { (k : ℕ) → k < result → row_items self.now.rows k ≢ row_items self.now.rows slot }
    {
        let row = &self.rows[slot];
        self.rows[..slot]
            .iter()
            .position(|known| known.same(row))
            .unwrap_or(slot)
    }

    // In the table, and not by `Row::step`: a form that is laid down (docs/DECISIONS.md).
    /// Completes a kernel in the place `slot` of the table, among the other rows, which keep their bytes.
    fn complete_at(&mut self, grammar: &Grammar, slot: usize, kernel: Row)
        requires { slot < 256 }
        ensures { CompletedAt (meaning grammar.now) self.old slot kernel self.new }
    {
        self.rows[slot] = kernel;
        self.rows[slot].complete(grammar);
    }

    /// Tries the step of the state i by the symbol x: the row that is wanted becomes a new state where none before it is the same.
    fn add_step(&mut self, grammar: &Grammar, i: usize, x: usize) -> Result<(), TableFault>
        requires come { Come (meaning grammar.now) self.old i x }
        requires state { i < self.old.count }
        requires symbol { x < total (meaning grammar.now) }
        ensures cases { MatchResult result (λ _. Come (meaning grammar.now) self.new i (x + 1)) (TooMany (meaning grammar.now)) }
        ensures grows { self.old.count ≤ self.new.count }
    {
        let Some(kernel) = self.rows[i].kernel(grammar, x) else {
            return Ok(());
        };
        let slot = usize::from(self.count);
        self.complete_at(grammar, slot, kernel);
        let target = self.place_of(slot);
        if target == 255 {
            return Err(TableFault::TooManyStates);
        }
        if target == slot {
            self.count += 1;
        }
        self.steps[i][x] = Some(target as u8);
        Ok(())
    }

    /// Tries every step of the state i.
    fn expand(&mut self, grammar: &Grammar, i: usize) -> Result<(), TableFault>
        requires come { Come (meaning grammar.now) self.old i 0 }
        requires state { i < self.old.count }
        ensures cases { MatchResult result (λ _. Come (meaning grammar.now) self.new (i + 1) 0) (TooMany (meaning grammar.now)) }
        ensures grows { self.old.count ≤ self.new.count }
    {
        for x in 0..usize::from(grammar.symbols()) {
            self.add_step(grammar, i, x)?;
        }
        Ok(())
    }

    /// All states of the grammar.
    pub(crate) fn all(grammar: &Grammar) -> Result<Building, TableFault>
        ensures { MatchResult result (λ b. Come (meaning grammar.now) b b.count 0) (TooMany (meaning grammar.now)) }
    {
        let mut states = Building::begin(grammar);
        let mut i = 0;
        // By number: the states grow on the way.
        while i < usize::from(states.count) {
            states.expand(grammar, i)?;
            i += 1;
        }
        Ok(states)
    }
}

impl BuiltStates {
    /// The states of the grammar, unless there are more than 255.
    pub fn build(grammar: &Grammar) -> Result<BuiltStates, TableFault>
        ensures { MatchResult result (λ b. Builds grammar.now b) (TooMany (meaning grammar.now)) }
    {
        let building = Building::all(grammar)?;
        Ok(BuiltStates {
            grammar: *grammar,
            building,
        })
    }
}
