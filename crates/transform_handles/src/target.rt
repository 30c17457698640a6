use mlir_ir::OpId;

/// What a handle names: the module, a function by its number from 0, or an operation.
#[derive(Clone, Copy, PartialEq, Eq)]
pub enum Target {
    Root,
    Function(u32),
    Operation(OpId),
}
