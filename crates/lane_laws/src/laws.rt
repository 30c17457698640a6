ghost use Rattle.lane_laws.specs.Laws.{ReadsUnderMask, LanesAreGeneric, ReducedLanesAreGeneric, MasksChoose, KeptAreOutputs};

// The functions here have no code: their contracts are the laws, over the definitions in `specs/`.

/// A masked read has at a lane the source's element, and 0 past its end.
pub fn masked_reads_hold_elements()
    ensures { ReadsUnderMask }
{}

/// Masked reads, the payload lane by lane and a masked write compute a generic whose dimensions are parallel.
pub fn lanes_compute_generics()
    ensures { LanesAreGeneric }
{}

/// With reductions, so do the steps before the one that joins, a term that is neutral outside the box, and
/// the reduction of it.
pub fn reductions_on_lanes_compute_generics()
    ensures reduced { ReducedLanesAreGeneric }
    ensures masks { MasksChoose }
    ensures kept { KeptAreOutputs }
{}
