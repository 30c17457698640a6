ghost use Rattle.point_laws.specs.Laws.{RaggedPoints, LiesInOneTile, RegionKeepsOrder, TilesFit};
ghost use Rattle.point_laws.specs.Laws.{FoldsInAnyOrder, FoldsInParts, CombinersSwap, NeutralAnywhere};
ghost use Rattle.point_laws.specs.Laws.{SmallerKeepsOrder, FurtherPointsKeep, OrdersPermute};

// The functions here have no code: their contracts are the laws, over the definitions in `specs/`.

/// The tiles of a box at multiples of a size, the last one ragged, hold each point once, and a region
/// keeps the order of its points.
pub fn tiles_hold_each_point_once()
    ensures ragged { RaggedPoints }
    ensures one { LiesInOneTile }
    ensures order { RegionKeepsOrder }
    ensures fit { TilesFit }
{}

/// A fold whose terms may change places is the same for every order and every cut. So is one by a
/// payload with a combiner, where a neutral term may also be added anywhere.
pub fn folds_may_be_cut()
    ensures order { FoldsInAnyOrder }
    ensures parts { FoldsInParts }
    ensures combiners { CombinersSwap }
    ensures neutral { NeutralAnywhere }
{}

/// The points of a box keep their order in a box that holds it at 0, and a fold over the greater box is
/// that over the smaller one where each further point keeps the element.
pub fn boxes_hold_boxes()
    ensures order { SmallerKeepsOrder }
    ensures folds { FurtherPointsKeep }
{}

/// The points of a box, their coordinates in another order, are those of the box in that order.
pub fn orders_permute_points()
    ensures { OrdersPermute }
{}
