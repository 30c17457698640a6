ghost use Rattle.region_laws.specs.Laws.{TypedByAxes, OperandsHaveTiles, OperandsAreRecords, TilesHaveBox};
ghost use Rattle.region_laws.specs.Laws.{TiledGenericIsTile, TilesAddRegions, SliceOfWholeIsTile, IndicesMove};
ghost use Rattle.region_laws.specs.Laws.{OthersStay, HoistedGives, PlacedGives, BodyDoesTile, BodyOfWholeOutput};
ghost use Rattle.region_laws.specs.Laws.{BodyNotesTile, ForallBegins, MatmulTileIsMatmul};
ghost use Rattle.region_laws.specs.Laws.{BatchMatmulTileIsBatchMatmul, FillTileIsFill, TransposeTileIsTranspose};
ghost use Rattle.region_laws.specs.Laws.{BroadcastTileIsBroadcast, TileForMeansGeneric, TileForallMeansGeneric};
ghost use Rattle.region_laws.specs.Laws.{InputsAreRecords, ForallBeginsAmong, TileIsMade, TileOfSliceIsMade};
ghost use Rattle.region_laws.specs.Laws.{TileIsInserted, InsertionIsNoted, SliceOfResultIsTile, TileForGivesGeneric};
ghost use Rattle.region_laws.specs.Laws.{TileForallGivesGeneric, CoveredOutputMayStartAnywhere, RegionsCover};
ghost use Rattle.region_laws.specs.Laws.{SpannedOutputMayStartAnywhere};

// The functions here have no code: their contracts are the laws, over the definitions in `specs/`.

/// A generic on the tiles of its operands is the tile of the generic.
pub fn generics_have_tiles()
    ensures typed { TypedByAxes }
    ensures operands { OperandsHaveTiles }
    ensures records { OperandsAreRecords }
    ensures box_of { TilesHaveBox }
    ensures tile { TiledGenericIsTile }
    ensures adds { TilesAddRegions }
    ensures slice { SliceOfWholeIsTile }
    ensures result { SliceOfResultIsTile }
{}

/// The payload on a tile gives at a point what the payload gives at the point moved by the offsets. A payload
/// with its captured values in front, or right before their first uses, gives what it gave.
pub fn payloads_move_with_tiles()
    ensures indices { IndicesMove }
    ensures others { OthersStay }
    ensures hoisted { HoistedGives }
    ensures placed { PlacedGives }
{}

/// The operations of a body, from the slices on, do one tile, also with others behind them.
pub fn bodies_do_one_tile()
    ensures nest { BodyDoesTile }
    ensures whole { BodyOfWholeOutput }
    ensures at_once { BodyNotesTile }
    ensures begins { ForallBegins }
    ensures begins_among { ForallBeginsAmong }
    ensures inputs { InputsAreRecords }
    ensures made { TileIsMade }
    ensures of_slice { TileOfSliceIsMade }
    ensures inserted { TileIsInserted }
    ensures noted { InsertionIsNoted }
{}

/// The tile of a named operation is one of its kind.
pub fn named_tiles_are_named()
    ensures matmul { MatmulTileIsMatmul }
    ensures batch_matmul { BatchMatmulTileIsBatchMatmul }
    ensures fill { FillTileIsFill }
    ensures transpose { TransposeTileIsTranspose }
    ensures broadcast { BroadcastTileIsBroadcast }
{}

/// Loops over the tiles of a generic mean what it means.
pub fn loops_over_tiles_mean_the_whole()
    ensures nest { TileForMeansGeneric }
    ensures at_once { TileForallMeansGeneric }
{}

/// Loops that carry or share several values give the generic's result as the one into which its tiles go. A
/// shared output that is covered may start from any tensor, and regions by the loop's variables cover it.
pub fn loops_give_the_whole_among_others()
    ensures nest { TileForGivesGeneric }
    ensures at_once { TileForallGivesGeneric }
    ensures starts { CoveredOutputMayStartAnywhere }
    ensures regions { RegionsCover }
    ensures spanned { SpannedOutputMayStartAnywhere }
{}
