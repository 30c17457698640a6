use mlir_base::List;
use mlir_ir::Tensor;

/// Why a run gives no tensors.
#[derive(Clone, Copy, PartialEq, Eq)]
pub enum Fault {
    /// A division or a remainder by 0, or a signed division of the least value by -1.
    Division,
    /// What only a function that doesn't verify can do: a body without its terminator, an insertion
    /// outside a `scf.forall`, or a result that is no tensor.
    Stuck,
}

/// What a function gives on its inputs.
#[derive(Drop)]
pub enum Answer {
    Results(List<Tensor>),
    Fails(Fault),
}
