//! The row of each state.
ghost use Rattle.rows.specs.Rows.{RowAt};
ghost use Rattle.built_states.specs.Meaning.{source};

use crate::built::BuiltStates;
use rows::Row;

impl BuiltStates {
    /// The row of a state; none where there is no such state.
    #[tactic(auto, using(std::proofs::lemmas::Grind::common_steps, table_format::proofs::Sources::row_is))]
    pub fn row(&self, state: u8) -> Option<Row>
        ensures { RowAt (source self.now) state result }
    {
        self.building.rows[..usize::from(self.building.count)]
            .get(usize::from(state))
            .copied()
    }
}
