use mlir_base::List;
use mlir_ir::OpId;

/// The operations of a step's result handles, in the order of those handles.
#[derive(Drop)]
pub struct Made {
    pub ops: List<OpId>,
}
