ghost use Rattle.pair_laws.specs.Laws.{AllCapturedMeet, FusedFits, InstancesProduce, PairKeepsMeaning, FirstPairStands, FirstPairKeepsMeaning, FusedPairPasses, FuseAllEnds, FuseAllPasses, FuseAllKeepsMeaning, FitsKeepsBox};

// The functions here have no code: their contracts are the laws, over the definitions in `specs/`.

/// The captured values of a producer and a consumer stand, each once, among those of both, and the payload of
/// the fused operation is one. A generic of a verified run whose output's map takes each dimension once is a
/// producer.
pub fn fused_operations_are_formed()
    ensures captured { AllCapturedMeet }
    ensures payload { FusedFits }
    ensures producers { InstancesProduce }
{}

/// Fusing a pair keeps the meaning of its function.
pub fn pairs_are_fused()
    ensures { PairKeepsMeaning }
{}

/// In a function that passes the verifier the first pair is such a pair: fused, it gives a function that means the
/// same, and that passes where its maps are maps.
pub fn first_pairs_are_fused()
    ensures stands { FirstPairStands }
    ensures keeps { FirstPairKeepsMeaning }
    ensures passes { FusedPairPasses }
{}

/// Fusing pairs until none is left ends; where it gives a function, that passes the verifier and means the same as
/// the one that passed before. The test on types keeps the box.
pub fn all_pairs_are_fused()
    ensures box_of { FitsKeepsBox }
    ensures ends { FuseAllEnds }
    ensures passes { FuseAllPasses }
    ensures keeps { FuseAllKeepsMeaning }
{}
