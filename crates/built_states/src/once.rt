//! That the states of a grammar are built in one way.
ghost use Rattle.built_states.specs.Once.{OneBuilding};

/// The states of a grammar, in the order in which the walk meets them, are one source of states.
pub fn states_are_built_in_one_way()
    ensures { OneBuilding }
{}
