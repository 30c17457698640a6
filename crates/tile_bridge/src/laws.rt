ghost use Rattle.tile_bridge.specs.Laws.{OperandsFitBox, RunsReachInstances, InstancesAreTyped, ParallelCutsOutput};
ghost use Rattle.tile_bridge.specs.Laws.{TilesOfPayloads};

// The functions here have no code: their contracts are the laws, over the definitions in `specs/`.

/// Where no rule fails at a structured operation, the operands of its generic fit its box in each state that
/// holds values of their types, and so it has what the laws of tiles, pads, packs and lanes ask.
pub fn operands_fit_their_box()
    ensures fits { OperandsFitBox }
    ensures typed { InstancesAreTyped }
    ensures cuts { ParallelCutsOutput }
    ensures payloads { TilesOfPayloads }
{}

/// So it is in each state in which a run of a verified function comes to the operation, at any place.
pub fn runs_reach_instances()
    ensures { RunsReachInstances }
{}
