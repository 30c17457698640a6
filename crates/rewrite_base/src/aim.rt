use mlir_edits::Place;
use mlir_ir::OpKind;
use structured_steps::StepRule;

/// What a step is about to do: it breaks a rule, or leaves the module as it is, or the operation at a place becomes one of another
/// kind.
#[derive(Drop)]
pub(crate) enum Aim {
    Breaks(StepRule),
    Stays,
    Becomes(Place, OpKind),
}
