ghost use Rattle.std.specs.Prelude.{◌≡◌, ◌≤◌, ◌^◌, OnOk, [], true, ◌==◌, Some, None, Option as Maybe, if◌then◌else◌};
ghost use Rattle.mlir_ir.specs.declared.tree.OpId.{OpId as Number};
ghost use Rattle.mlir_verify.specs.Rules.{IsVerified};
ghost use Rattle.verified_runs.specs.Fresh.{fresh_value, fresh_op};
ghost use Rattle.step_passes.specs.Drafting.{TakesTurn, with_exchange, IsFitting, IsFittingIfThere, Plans};
ghost use Rattle.step_passes.specs.Noting.{noted_in, IsNoted};
ghost use Rattle.step_passes.specs.Planned.{Told as Answer, limit_before, planned};
ghost use Rattle.step_passes.specs.Sequences.{are_targets};
ghost use Rattle.step_passes.specs.Steps.{generalizing, interchanging};
ghost use Rattle.step_passes.specs.Telling.{exchanging, Tells};

use crate::exchange::Exchange;
use crate::index::{Index, index_of};
use crate::told::{Step, Told};
use mlir_base::{List, Memory, Which};
use mlir_edits::{ops_end, values_end};
use mlir_ir::{Module, OpId, OpKind};
use rewrite_base::{StepError, passed};
use std::alloc::Global;

/// What a step is to do at operations: the exchanges, and the operations that stand for its targets.
#[derive(Drop)]
pub(crate) struct Plan {
    pub(crate) exchanges: List<Exchange>,
    pub(crate) stand: List<OpId>,
}

/// A plan of the first targets, with the next fresh numbers.
#[derive(Drop)]
struct Draft {
    exchanges: List<Exchange>,
    stand: List<OpId>,
    value: u64,
    op: u64,
}

/// The limit that is passed before the next fresh numbers; the last one is the module's own.
fn limit_before(draft: &Draft, own: Option<Which>) -> Option<Which>
    ensures { result ≡ limit_before draft.now.value draft.now.op own }
{
    if draft.value > 1 << 31 || draft.op > 1 << 31 {
        Some(Which::Operations)
    } else {
        own
    }
}

/// The operation stands for itself.
fn keep(draft: &mut Draft, own: Option<Which>, op: OpId) -> Result<(), StepError>
    ensures { TakesTurn (Some (None, None)) op own draft.old draft.new result }
{
    if let Some(which) = limit_before(draft, own) {
        return Err(StepError::Limit { which });
    }
    match draft.stand.push(op) {
        Ok(()) => Ok(()),
        Err(_) => Err(StepError::Memory),
    }
}

/// Adds an exchange, under the next fresh numbers.
fn add(draft: &mut Draft, target: OpId, kind: OpKind) -> Result<(), Memory>
    requires value { draft.old.value ≤ 2 ^ 31 }
    requires op { draft.old.op ≤ 2 ^ 31 }
    ensures { OnOk result (draft.new ≡ with_exchange target kind draft.old) }
{
    let (value, op) = (draft.value as u32, draft.op as u32);
    draft.exchanges.push(Exchange {
        target,
        op,
        value,
        kind,
    })?;
    draft.stand.push(OpId(op))?;
    draft.value += 1;
    draft.op += 1;
    Ok(())
}

/// The operation becomes one of this kind, with fresh numbers.
fn exchange(
    draft: &mut Draft,
    own: Option<Which>,
    target: OpId,
    kind: OpKind,
) -> Result<(), StepError>
    ensures { TakesTurn (Some (None, Some kind)) target own draft.old draft.new result }
{
    if let Some(which) = limit_before(draft, own) {
        return Err(StepError::Limit { which });
    }
    match add(draft, target, kind) {
        Ok(()) => Ok(()),
        Err(_) => Err(StepError::Memory),
    }
}

fn take_turn(draft: &mut Draft, own: Option<Which>, op: OpId, told: Told) -> Result<(), StepError>
    requires { IsFitting told }
    ensures { (t : Answer) → Tells t told → TakesTurn (Some t) op own draft.old draft.new result }
{
    match told {
        Told::Breaks(rule) => Err(StepError::Rule { rule, op: Some(op) }),
        Told::Stays => keep(draft, own, op),
        Told::Unfit => unreachable!(),
        Told::Becomes(kind) => exchange(draft, own, op, kind),
    }
}

/// A target's turn, by what is noted of it. An operation that isn't there has none.
fn turn_at(
    draft: &mut Draft,
    own: Option<Which>,
    index: &mut Index,
    op: OpId,
) -> Result<(), StepError>
    requires { IsFittingIfThere (noted_in index.old op) }
    ensures turn { (t : Maybe Answer) → IsNoted t (noted_in index.old op)
        → TakesTurn t op own draft.old draft.new result }
    ensures others { (i : Number) → noted_in index.new i ≡ (if op.0 == i.0 then None else noted_in index.old i) }
{
    match index.take(op) {
        Some(told) => take_turn(draft, own, op, told),
        None => Ok(()),
    }
}

fn plan_of(alloc: Global, step: &Step, m: &Module, ops: &[OpId]) -> Result<Plan, StepError>
    requires verified { IsVerified m.now }
    requires targets { are_targets m.now ops.now ≡ true }
    ensures { Plans (
        planned (exchanging step.now) m.now ops.now [] (fresh_value m.now.funcs) (fresh_op m.now.funcs)) result }
{
    let Ok(mut index) = index_of(alloc, step, m, ops) else {
        return Err(StepError::Memory);
    };
    let own = passed(m);
    let mut draft = Draft {
        exchanges: List::new(alloc),
        stand: List::new(alloc),
        value: values_end(m),
        op: ops_end(m),
    };
    for op in ops {
        match turn_at(&mut draft, own, &mut index, *op) {
            Ok(()) => {}
            Err(e) => return Err(e),
        }
    }
    Ok(Plan {
        exchanges: draft.exchanges,
        stand: draft.stand,
    })
}

/// What generalizing is to do at these operations.
pub(crate) fn plan_generalize(alloc: Global, m: &Module, ops: &[OpId]) -> Result<Plan, StepError>
    requires verified { IsVerified m.now }
    requires targets { are_targets m.now ops.now ≡ true }
    ensures { Plans (planned generalizing m.now ops.now [] (fresh_value m.now.funcs) (fresh_op m.now.funcs)) result }
{
    plan_of(alloc, &Step::Generalize, m, ops)
}

/// What interchanging dimensions in this order is to do at these operations.
pub(crate) fn plan_interchange(
    alloc: Global,
    m: &Module,
    ops: &[OpId],
    order: &[u32],
) -> Result<Plan, StepError>
    requires verified { IsVerified m.now }
    requires targets { are_targets m.now ops.now ≡ true }
    ensures { Plans (
        planned (interchanging order.now) m.now ops.now [] (fresh_value m.now.funcs) (fresh_op m.now.funcs)) result }
{
    plan_of(alloc, &Step::Interchange(order), m, ops)
}
