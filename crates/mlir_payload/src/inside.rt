//! The inside of a payload.

use mlir_base::List;
use mlir_scope::Names;
use payload_ops::PayloadStep;

/// The inside of a payload: the names of its arguments and steps, and the steps so far.
#[derive(Drop)]
pub struct Inside<'a> {
    pub names: Names<'a>,
    pub steps: List<PayloadStep>,
}
