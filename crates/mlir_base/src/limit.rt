/// Which limit was passed.
#[derive(Clone, Copy, PartialEq, Eq)]
pub enum Which {
    Bytes,
    Operations,
    Depth,
    Parameters,
    Results,
    Operands,
    PayloadSteps,
    ScriptSteps,
    Rank,
    Loops,
    Extent,
    Elements,
    Lanes,
    Cells,
    Work,
}
