ghost use Rattle.std.specs.Prelude.{◌≡◌, ◌<◌, ◌^◌, [], ◌∷◌, length, List as Sequence, IfOk, IfSome, IsSome};
ghost use Rattle.mlir_ir.specs.declared.tree.Module.{Module as Whole};
ghost use Rattle.mlir_ir.specs.declared.tree.OpId.{OpId as Number};
ghost use Rattle.mlir_meaning.specs.States.{names_of};
ghost use Rattle.mlir_edits.specs.Places.{op_at};
ghost use Rattle.mlir_edits.specs.Replaced.{replaced_at};
ghost use Rattle.mlir_verify.specs.Rules.{IsVerified};
ghost use Rattle.verified_runs.specs.Edits.{renumbered};
ghost use Rattle.verified_runs.specs.Fresh.{fresh_value, fresh_op};
ghost use Rattle.structured_steps.specs.Steps.{Rules};
ghost use Rattle.rewrite_base.specs.Aims.{AimsAt, AimVerifies, Forms, WithinLimits};
ghost use Rattle.rewrite_base.specs.Answers.{Answers, new_op};
ghost use Rattle.rewrite_base.specs.Exchanged.{exchanged};

use crate::aim::Aim;
use crate::error::StepError;
use crate::limits::{has_large_numbers, passed};
use crate::made::Made;
use mlir_base::{List, Memory, Which};
use mlir_edits::{Place, fresh, renumbered, replace_at, target_at};
use mlir_ir::{Module, Op, OpId, OpKind, Ty, ValueId};
use mlir_verify::Checked;
use std::alloc::Global;

fn names_of(alloc: Global, definitions: &[(ValueId, Ty)]) -> Result<List<ValueId>, Memory>
    ensures { IfOk result (λ l. l ≡ names_of definitions.now) }
{
    let mut names = List::new(alloc);
    for d in definitions {
        names.push(d.0)?;
    }
    Ok(names)
}

/// Fresh results of the types that the operation at a place has.
fn fresh_results(
    alloc: Global,
    m: &Module,
    place: Place,
    value: u32,
) -> Result<List<(ValueId, Ty)>, Memory>
    requires { IsSome (op_at place m.now.funcs) }
    ensures { IfOk result (λ l. IfSome (op_at place m.now.funcs) (λ o. l ≡ renumbered value o.results)) }
{
    match target_at(m, place) {
        Some(target) => renumbered(alloc, value, target.op.results.as_slice()),
        None => unreachable!(),
    }
}

/// The module with new operations, of which there is one or more, in the place of one.
fn put_filled(m: Module, place: Place, new: List<Op>, values: &[ValueId]) -> Result<Module, Memory>
    requires there { IsSome (op_at place m.funcs) }
    requires new { 0 < length new }
    ensures { IfOk result (λ n. n ≡ replaced_at place (record { ops = new; values = values.now }) m) }
{
    replace_at(m, place, new, values)
}

/// The operation at a place anew, of another kind.
fn exchange(alloc: Global, m: Module, place: Place, kind: OpKind) -> Result<Module, Memory>
    requires there { IsSome (op_at place m.funcs) }
    requires values { fresh_value m.funcs < 2 ^ 32 }
    requires ops { fresh_op m.funcs < 2 ^ 32 }
    ensures { IfOk result (λ n. n ≡ exchanged place kind m) }
{
    let (value, id) = fresh(&m);
    let results = fresh_results(alloc, &m, place, value)?;
    let values = names_of(alloc, results.as_slice())?;
    let mut new = List::new(alloc);
    new.push(Op {
        id: OpId(id),
        results,
        kind,
    })?;
    put_filled(m, place, new, values.as_slice())
}

fn made(alloc: Global, op: OpId) -> Result<Made, Memory>
    ensures { IfOk result (λ made. made.ops ≡ op ∷ []) }
{
    let mut ops = List::new(alloc);
    ops.push(op)?;
    Ok(Made { ops })
}

/// The module, where it passes no limit.
fn within_limits(m: Module, made: Made) -> Result<(Checked, Made), StepError>
    requires { IsVerified m }
    ensures { WithinLimits m made result }
{
    match passed(&m) {
        Some(which) => Err(StepError::Limit { which }),
        None => Ok((Checked::from_verified(m), made)),
    }
}

fn stays(alloc: Global, c: Checked, op: OpId) -> Result<(Checked, Made), StepError>
    ensures { Forms c c (op ∷ []) result }
{
    let m = c.into_module();
    if has_large_numbers(&m) {
        return Err(StepError::Limit {
            which: Which::Operations,
        });
    }
    match made(alloc, op) {
        Ok(made) => within_limits(m, made),
        Err(_) => Err(StepError::Memory),
    }
}

/// The module with the operation at a place anew, of another kind.
fn becomes(
    alloc: Global,
    c: Checked,
    place: Place,
    kind: OpKind,
) -> Result<(Checked, Made), StepError>
    requires there { IsSome (op_at place c.funcs) }
    requires verified { IsVerified (exchanged place kind c) }
    ensures { Forms c (exchanged place kind c) (new_op c ∷ []) result }
{
    let m = c.into_module();
    if has_large_numbers(&m) {
        return Err(StepError::Limit {
            which: Which::Operations,
        });
    }
    let (_, id) = fresh(&m);
    match exchange(alloc, m, place, kind) {
        Ok(formed) => match made(alloc, OpId(id)) {
            Ok(made) => within_limits(formed, made),
            Err(_) => Err(StepError::Memory),
        },
        Err(_) => Err(StepError::Memory),
    }
}

/// What a step at an operation answers that has this aim.
pub(crate) fn finish(
    alloc: Global,
    c: Checked,
    op: OpId,
    aim: Aim,
) -> Result<(Checked, Made), StepError>
    requires { AimVerifies c aim }
    ensures { (rules : Rules) (formed : Whole) (ops : Sequence Number) → AimsAt rules op c formed ops aim → Answers rules op c formed ops result }
{
    match aim {
        Aim::Breaks(rule) => Err(StepError::Rule { rule, op: Some(op) }),
        Aim::Stays => stays(alloc, c, op),
        Aim::Becomes(place, kind) => becomes(alloc, c, place, kind),
    }
}
