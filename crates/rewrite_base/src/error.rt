use mlir_base::Which;
use mlir_ir::OpId;
use structured_steps::StepRule;

/// Why a step refuses a module: the first of its rules that is broken, with the operation at which it is, or the first limit that is
/// passed where no rule is broken, or want of memory.
#[derive(Clone, Copy)]
pub enum StepError {
    Rule { rule: StepRule, op: Option<OpId> },
    Limit { which: Which },
    Memory,
}
