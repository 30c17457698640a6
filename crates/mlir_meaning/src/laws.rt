ghost use Rattle.mlir_meaning.specs.Laws.{RunsInTurn, RunsAlike, RunsAlikeUnused, RunsKeepOthers, RenamingKeepsMeaning, PlaceRunsAlike, ContextKeepsMeaning, ReplacementKeepsMeaning};
ghost use Rattle.mlir_meaning.specs.Laws.{OneStateReplacement, InPlaceKeepsMeaning, RemovalKeepsMeaning};
ghost use Rattle.mlir_meaning.specs.Laws.{FillIsGeneric, MatmulIsGeneric, BatchMatmulIsGeneric, TransposeIsGeneric, BroadcastIsGeneric};
ghost use Rattle.mlir_meaning.specs.Laws.{ReadsTable, ReadsNoneOutside, IsItsTable, PointsLieInBox, PointsStandAtTheirPlaces, PlacesCountUp, SlicesCompose};
ghost use Rattle.mlir_meaning.specs.Laws.{ReadsInsertionInside, ReadsInsertionOutside, SlicesInsertion, DisjointInsertionsSwap};

// The functions here have no code: their contracts are the laws, over the definitions in `specs/`.

/// Running operations and then others is running both.
pub fn operations_run_in_turn()
    ensures { RunsInTurn }
{}

/// Operations, with the bodies inside them, run alike in states that differ only where they don't
/// read. They change no value but their results.
pub fn operations_depend_on_what_they_read()
    ensures alike { RunsAlike }
    ensures unused { RunsAlikeUnused }
    ensures kept { RunsKeepOthers }
{}

/// Other numbers for operations and values change no meaning.
pub fn numbers_carry_no_meaning()
    ensures { RenamingKeepsMeaning }
{}

/// Operations that have the same local effect in each state that comes to a place, at any depth of
/// loops, may stand there for one another.
pub fn context_keeps_meaning()
    ensures alike { PlaceRunsAlike }
    ensures meaning { ContextKeepsMeaning }
{}

/// The same where the later uses of the results are renamed.
pub fn replacement_keeps_meaning()
    ensures { ReplacementKeepsMeaning }
{}

/// Operations that have the effect of others in each one state that comes to their place may stand
/// there, with later uses renamed.
pub fn one_state_decides()
    ensures { OneStateReplacement }
{}

/// Operations that run as others do may stand in their place, and one that nothing reads may go.
pub fn places_may_change()
    ensures in_place { InPlaceKeepsMeaning }
    ensures removal { RemovalKeepsMeaning }
{}

/// The named structured operations are generics: those of these forms, over the same operands.
pub fn named_operations_are_generics()
    ensures fill { FillIsGeneric }
    ensures matmul { MatmulIsGeneric }
    ensures batch_matmul { BatchMatmulIsGeneric }
    ensures transpose { TransposeIsGeneric }
    ensures broadcast { BroadcastIsGeneric }
{}

/// The elements of tables, and the points of a box and their places.
pub fn grids_are_tables()
    ensures table { ReadsTable }
    ensures outside { ReadsNoneOutside }
    ensures own_table { IsItsTable }
    ensures inside { PointsLieInBox }
    ensures in_order { PointsStandAtTheirPlaces }
    ensures places { PlacesCountUp }
{}

/// Slices of slices, insertions read inside and outside their regions, and disjoint insertions.
pub fn regions_read_and_write()
    ensures slices { SlicesCompose }
    ensures within { ReadsInsertionInside }
    ensures outside { ReadsInsertionOutside }
    ensures back { SlicesInsertion }
    ensures swap { DisjointInsertionsSwap }
{}
