ghost use Rattle.operand_slices.specs.Laws.{OffsetsAreAtOffsets, SizesReach};

/// An offset is worth the expression's value at the offsets.
pub fn offsets_are_at_offsets()
    ensures { OffsetsAreAtOffsets }
{}

/// A size is worth one more than what the expression grows by from the first point of the sizes to the last.
pub fn sizes_reach()
    ensures { SizesReach }
{}
