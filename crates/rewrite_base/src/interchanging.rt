ghost use Rattle.std.specs.Prelude.{◌≡◌, ◌&&◌, not, is_some, IsSome, IfOk};
ghost use Rattle.payload_laws.specs.Combiners.{combiner_of};
ghost use Rattle.mlir_ir.specs.Count.{find_in};
ghost use Rattle.structured_steps.specs.Interchange.{as_generic, keeps_reductions};
ghost use Rattle.structured_steps.specs.Steps.{rules_of_interchange, interchanged_in};
ghost use Rattle.rewrite_base.specs.Aims.{AimsAt, AimVerifies};
ghost use Rattle.rewrite_base.specs.Answers.{Answers, made_by_interchange};
ghost use Rattle.rewrite_base.specs.Turns.{Turns};

use crate::aim::Aim;
use crate::error::StepError;
use crate::exchange::finish;
use crate::made::Made;
use crate::orders::{is_order, keeps_reductions};
use crate::turn::Turn;
use crate::turning::turned_generic;
use mlir_base::Memory;
use mlir_edits::{place_of, target_at};
use mlir_ir::{Iter, OpId, OpKind};
use mlir_verify::Checked;
use payload_laws::combiner;
use payload_ops::Payload;
use std::alloc::Global;
use structured_steps::StepRule;

fn breaks_reduction_order(
    alloc: Global,
    order: &[u32],
    iterators: &[Iter],
    payload: &Payload,
) -> Result<bool, Memory>
    ensures { IfOk result (λ b. b ≡ not (keeps_reductions order.now iterators.now) && not (is_some (combiner_of payload.now))) }
{
    let keeps = keeps_reductions(alloc, order, iterators)?;
    Ok(!keeps && combiner(payload).is_none())
}

/// What an operation becomes in this order.
pub fn turn(alloc: Global, order: &[u32], kind: &OpKind) -> Result<Turn, Memory>
    ensures { IfOk result (Turns order.now (as_generic kind.now)) }
{
    match kind {
        OpKind::Generic {
            maps,
            iterators,
            ins,
            outs,
            captured,
            payload,
        } => {
            if !is_order(order, iterators.len()) {
                return Ok(Turn::Breaks(StepRule::Permutation));
            }
            if breaks_reduction_order(alloc, order, iterators.as_slice(), payload)? {
                return Ok(Turn::Breaks(StepRule::ReductionOrder));
            }
            match turned_generic(alloc, order, maps, iterators, ins, *outs, captured, payload) {
                Ok(Some(kind)) => Ok(Turn::Becomes(kind)),
                Ok(None) => Ok(Turn::Unfit),
                Err(e) => Err(e),
            }
        }
        _ => Ok(Turn::Breaks(StepRule::WrongKind)),
    }
}

/// What interchanging an operation's dimensions is about to do.
fn aim_at(alloc: Global, c: &Checked, op: OpId, order: &[u32]) -> Result<Aim, Memory>
    requires { IsSome (find_in op c.now.funcs) }
    ensures aims { IfOk result (AimsAt (rules_of_interchange order.now) op c.now (interchanged_in op order.now c.now) (made_by_interchange c.now)) }
    ensures verifies { IfOk result (AimVerifies c.now) }
{
    let Some(place) = place_of(c.module(), op) else {
        unreachable!()
    };
    let Some(target) = target_at(c.module(), place) else {
        unreachable!()
    };
    match turn(alloc, order, &target.op.kind) {
        Ok(Turn::Breaks(rule)) => Ok(Aim::Breaks(rule)),
        Ok(Turn::Unfit) => unreachable!(),
        Ok(Turn::Becomes(kind)) => Ok(Aim::Becomes(place, kind)),
        Err(e) => Err(e),
    }
}

/// The step `interchange`: dimension k of the generic becomes what was dimension `order[k]`, in maps, iterators and
/// `linalg.index` (Transform manual, "transform.structured.interchange"). The module has the operation.
///
/// `WrongKind`: the operation isn't a generic. `Permutation`: `order` isn't a permutation of its dimensions. `ReductionOrder`: the
/// reduction dimensions change their order among themselves, and the payload has no combiner. The limits `Operations`,
/// `Depth` and `PayloadSteps` come where the module that is formed passes them, and `Operations` also where a number of the module
/// is 2^31 or more.
pub fn interchange(
    alloc: Global,
    c: Checked,
    op: OpId,
    order: &[u32],
) -> Result<(Checked, Made), StepError>
    requires { IsSome (find_in op c.funcs) }
    ensures { Answers (rules_of_interchange order.now) op c (interchanged_in op order.now c) (made_by_interchange c) result }
{
    match aim_at(alloc, &c, op, order) {
        Ok(aim) => finish(alloc, c, op, aim),
        Err(_) => Err(StepError::Memory),
    }
}
