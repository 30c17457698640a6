use mlir_ir::OpKind;

/// What an operation is as a generic: it is one already, it has no such form, its parts don't fit together, or it becomes this
/// one.
#[derive(Drop)]
pub enum Shape {
    Stays,
    Wrong,
    Unfit,
    Becomes(OpKind),
}
