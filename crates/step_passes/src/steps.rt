//! The steps `generalize` and `interchange` at many operations.

ghost use Rattle.std.specs.Prelude.{◌≡◌, true, Ok as Gives};
ghost use Rattle.mlir_verify.specs.Rules.{IsVerified};
ghost use Rattle.step_passes.specs.Answered.{Answered};
ghost use Rattle.step_passes.specs.OnePass.{passed_module};
ghost use Rattle.step_passes.specs.Sequences.{at_each, exchanged_at, are_targets};
ghost use Rattle.step_passes.specs.Steps.{generalizing, interchanging};

use crate::carry::carry_out;
use crate::exchange::Exchange;
use crate::plan::{plan_generalize, plan_interchange};
use mlir_base::List;
use mlir_ir::OpId;
use mlir_verify::Checked;
use rewrite_base::{Made, StepError};
use std::alloc::Global;

/// The module after these exchanges, and the operations that stand for their targets.
fn carried(
    alloc: Global,
    c: Checked,
    exchanges: List<Exchange>,
    stand: List<OpId>,
) -> Result<(Checked, Made), StepError>
    requires { IsVerified (passed_module exchanges c) }
    ensures { Answered result (Gives (passed_module exchanges c, stand)) }
{
    match carry_out(alloc, c.into_module(), exchanges) {
        Ok(m) => Ok((Checked::from_verified(m), Made { ops: stand })),
        Err(_) => Err(StepError::Memory),
    }
}

/// Generalizes operations in turn, each in the module that the ones before it gave. They are different operations of the module.
///
/// The first rule that is broken or limit that is passed ends it (Transform manual, "transform.structured.generalize").
pub fn generalize_all(alloc: Global, c: Checked, ops: &[OpId]) -> Result<(Checked, Made), StepError>
    requires { are_targets c ops.now ≡ true }
    ensures { Answered result (at_each (exchanged_at generalizing) ops.now c) }
{
    match plan_generalize(alloc, c.module(), ops) {
        Ok(plan) => carried(alloc, c, plan.exchanges, plan.stand),
        Err(e) => Err(e),
    }
}

/// Interchanges the dimensions of operations in turn, each in the module that the ones before it gave. They are different
/// operations of the module.
///
/// The first rule that is broken or limit that is passed ends it (Transform manual, "transform.structured.interchange").
pub fn interchange_all(
    alloc: Global,
    c: Checked,
    ops: &[OpId],
    order: &[u32],
) -> Result<(Checked, Made), StepError>
    requires { are_targets c ops.now ≡ true }
    ensures { Answered result (at_each (exchanged_at (interchanging order.now)) ops.now c) }
{
    match plan_interchange(alloc, c.module(), ops, order) {
        Ok(plan) => carried(alloc, c, plan.exchanges, plan.stand),
        Err(e) => Err(e),
    }
}
