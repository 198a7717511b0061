//! States built from a grammar.
ghost use Rattle.grammar.specs.Meaning.{meaning};
ghost use Rattle.built_states.specs.Built.{Built, Stepped};

use crate::building::Building;
use grammar::Grammar;

/// The LR(0) states of a grammar, numbered as the walk over their table meets them.
#[derive(Clone, Copy)]
pub struct BuiltStates {
    pub(crate) grammar: Grammar,
    pub(crate) building: Building,
    ghost stepped: { Stepped building.count building.steps },
    ghost built: { ∥ Built (meaning grammar) building.count building.rows building.steps ∥₁ },
}
