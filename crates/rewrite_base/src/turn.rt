use mlir_ir::OpKind;
use structured_steps::StepRule;

/// What an operation becomes in another order of its dimensions, or the rule that is broken.
#[derive(Drop)]
pub enum Turn {
    Breaks(StepRule),
    Unfit,
    Becomes(OpKind),
}
