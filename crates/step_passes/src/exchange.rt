use mlir_ir::{OpId, OpKind};

/// An operation that is to become one of another kind, and the fresh numbers of it and of its result.
#[derive(Drop)]
pub struct Exchange {
    pub target: OpId,
    pub op: u32,
    pub value: u32,
    pub kind: OpKind,
}
