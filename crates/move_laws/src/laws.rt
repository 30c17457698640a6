ghost use Rattle.move_laws.specs.Laws.{InsertsOwnSlice, SlicesElsewhere, SlicesPad};
ghost use Rattle.move_laws.specs.Laws.{PaddedIsGeneric, PaddedInputsAreGeneric, PaddedRunsAsGeneric};
ghost use Rattle.move_laws.specs.Laws.{UnpacksPack, PackedIsGeneric, PackedInputsAreGeneric, PackedRunsAsGeneric};

// The functions here have no code: their contracts are the laws, over the definitions in `specs/`.

/// A slice inserted at its own place changes nothing, and one apart from an insertion doesn't see it.
pub fn slices_and_insertions_meet()
    ensures own { InsertsOwnSlice }
    ensures elsewhere { SlicesElsewhere }
    ensures pad { SlicesPad }
{}

/// A generic over padded operands, sliced back, is the generic.
pub fn padded_generics_are_generics()
    ensures whole { PaddedIsGeneric }
    ensures inputs { PaddedInputsAreGeneric }
    ensures runs { PaddedRunsAsGeneric }
{}

/// A generic over packed operands, unpacked, is the generic.
pub fn packed_generics_are_generics()
    ensures back { UnpacksPack }
    ensures whole { PackedIsGeneric }
    ensures inputs { PackedInputsAreGeneric }
    ensures runs { PackedRunsAsGeneric }
{}
