use mlir_base::{List, Width};

/// The cells of a tensor or a vector in row-major order, one for each point of the box of these extents
/// (Builtin manual, "RankedTensorType" and "VectorType").
#[derive(Drop)]
pub struct Grid {
    pub extents: List<u64>,
    pub cells: List<u64>,
}

/// What a value holds: an `index` number, the bits of a scalar integer, or the cells of a tensor or a
/// vector with their width.
#[derive(Drop)]
pub enum Datum {
    Number(i64),
    Bits(u64),
    Cells { width: Width, grid: Grid },
}

/// A tile that a `scf.forall` is to insert into its shared output of this position.
#[derive(Drop)]
pub struct Insertion {
    pub output: usize,
    pub tile: Grid,
    pub offsets: List<u64>,
}
