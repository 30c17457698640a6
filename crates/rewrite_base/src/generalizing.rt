ghost use Rattle.std.specs.Prelude.{IsSome, IfOk};
ghost use Rattle.mlir_ir.specs.Count.{find_in};
ghost use Rattle.structured_steps.specs.Steps.{rules_of_generalize, generalized};
ghost use Rattle.rewrite_base.specs.Aims.{AimsAt, AimVerifies};
ghost use Rattle.rewrite_base.specs.Answers.{Answers, made_by_generalize};

use crate::aim::Aim;
use crate::error::StepError;
use crate::exchange::finish;
use crate::forms::shape_at;
use crate::made::Made;
use crate::shape::Shape;
use mlir_base::Memory;
use mlir_edits::{place_of, target_at};
use mlir_ir::OpId;
use mlir_verify::Checked;
use std::alloc::Global;
use structured_steps::StepRule;

/// What generalizing an operation is about to do.
fn aim_at(alloc: Global, c: &Checked, op: OpId) -> Result<Aim, Memory>
    requires { IsSome (find_in op c.now.funcs) }
    ensures aims { IfOk result (AimsAt rules_of_generalize op c.now (generalized op c.now) (made_by_generalize op c.now)) }
    ensures verifies { IfOk result (AimVerifies c.now) }
{
    let Some(place) = place_of(c.module(), op) else {
        unreachable!()
    };
    let Some(target) = target_at(c.module(), place) else {
        unreachable!()
    };
    match shape_at(alloc, target.func, place.op, &target.op.kind) {
        Ok(Shape::Stays) => Ok(Aim::Stays),
        Ok(Shape::Wrong) => Ok(Aim::Breaks(StepRule::WrongKind)),
        Ok(Shape::Unfit) => unreachable!(),
        Ok(Shape::Becomes(kind)) => Ok(Aim::Becomes(place, kind)),
        Err(e) => Err(e),
    }
}

/// The step `generalize`: a named structured operation becomes the generic that it is, with the same operands and
/// fresh numbers; a generic stays as it is (Transform manual, "transform.structured.generalize"). The module has the operation.
///
/// `WrongKind`: the operation isn't structured. The limits `Operations`, `Depth` and `PayloadSteps` come where the module that is
/// formed passes them, and `Operations` also where a number of the module is 2^31 or more.
pub fn generalize(alloc: Global, c: Checked, op: OpId) -> Result<(Checked, Made), StepError>
    requires { IsSome (find_in op c.funcs) }
    ensures { Answers rules_of_generalize op c (generalized op c) (made_by_generalize op c) result }
{
    match aim_at(alloc, &c, op) {
        Ok(aim) => finish(alloc, c, op, aim),
        Err(_) => Err(StepError::Memory),
    }
}
