ghost use Rattle.fuse_laws.specs.Laws.{JoinedGives, JoinedFits, OnePoint, FusedGives};

// The functions here have no code: their contracts are the laws, over the definitions in `specs/`.

/// The joined payload gives what the consumer gives on the producer's value, and is a payload.
pub fn payloads_are_joined()
    ensures gives { JoinedGives }
    ensures fits { JoinedFits }
{}

/// An element of a parallel generic is the payload's value at one point, and the fused generic gives the
/// consumer's result.
pub fn generics_are_fused()
    ensures point { OnePoint }
    ensures fused { FusedGives }
{}
