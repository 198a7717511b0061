//! Built states as a source of states.
ghost use Rattle.std.specs.Prelude.{◌≡◌, ◌≤◌};
ghost use Rattle.built_states.specs.Meaning.{source, table};
ghost use Rattle.std.proofs.Math.Logic.{∥∥₁_elim};
ghost use Rattle.std.proofs.Math.Bridge.{le_prop};
ghost use Rattle.table_format.specs.Tables.{Matches, source_of};
ghost use Rattle.table_format.proofs.Props.{matches_prop};
ghost use Rattle.table_format.proofs.Sources;
ghost use Rattle.table_format.proofs.Sources.{bounded};
ghost use Rattle.grammar.specs.Meaning;
ghost use Rattle.grammar.proofs.Held.{held};
ghost use Rattle.built_states.specs.Built.{row_items};
ghost use Rattle.rows.proofs.Grammars.{right_sides};

use crate::built::BuiltStates;
use states::StateSource;

impl StateSource for BuiltStates {
    ghost meaning = { λ b. source b };

    ghost lawful = { unfold source_of in
        λ b.
        let g = Meaning.meaning b.grammar in
        let m : Matches g (table b) (row_items b.building.rows) = ∥∥₁_elim b.built (matches_prop g (table b) (row_items b.building.rows)) (λ x. x.matched) in
        let few : b.building.count ≤ 255 = ∥∥₁_elim b.built le_prop (λ x. x.few) in
        record {
          lawful = Sources.lawful (right_sides b.grammar) few m;
          bounded = bounded g (table b) (row_items b.building.rows);
          some_states = ∥∥₁_elim b.built le_prop (λ x. x.some);
          few_states = few;
          well_formed = (held b.grammar).kept.well_formed;
          some_terminals = (held b.grammar).kept.some_terminals;
          few_terminals = (held b.grammar).kept.few_terminals;
          some_nonterminals = (held b.grammar).kept.some_nonterminals;
          few_nonterminals = (held b.grammar).kept.few_nonterminals;
        } };

    // Each source passes these six on by itself: the trait asks for a meaning, not for a grammar that is held.
    fn terminals(&self) -> u8 {
        self.grammar.terminals()
    }

    fn nonterminals(&self) -> u8 {
        self.grammar.nonterminals()
    }

    fn rules(&self) -> u8 {
        self.grammar.rules()
    }

    fn left(&self, rule: usize) -> u8 {
        self.grammar.left(rule)
    }

    fn length(&self, rule: usize) -> u8 {
        self.grammar.length(rule)
    }

    fn right(&self, rule: usize, place: usize) -> u8 {
        self.grammar.right(rule, place)
    }

    fn states(&self) -> u8 {
        self.building.count
    }

    fn first(&self) -> u8 {
        0
    }

    fn next(&self, state: u8, symbol: u8) -> Option<u8> {
        if state >= self.states() || symbol >= self.grammar.symbols() {
            return None;
        }
        self.building.steps[usize::from(state)][usize::from(symbol)]
    }

    fn done(&self, state: u8, rule: u8) -> bool {
        state < self.states()
            && self.building.rows[usize::from(state)].is_done(&self.grammar, usize::from(rule))
    }
}
