ghost use Rattle.std.specs.Prelude.{◌≡◌, IfOk};
ghost use Rattle.mlir_ir.specs.declared.tree.OpKind.{Constant, Apply, Least, Empty, Yield, CreateMask, Elementwise, MultiReduction, Return};

use crate::lists::copy_list;
use crate::parts::{copy_map, copy_step_op};
use affine_maps::AffineMap;
use mlir_base::{List, Memory};
use mlir_ir::{OpKind, ValueId};
use payload_ops::{Combiner, StepOp};
use std::alloc::Global;

pub(crate) fn copy_constant(alloc: Global, value: &List<u64>) -> Result<OpKind, Memory>
    ensures { IfOk result (λ k. k ≡ Constant value.now) }
{
    let value = copy_list(alloc, value.as_slice())?;
    Ok(OpKind::Constant { value })
}

pub(crate) fn copy_apply(
    alloc: Global,
    map: &AffineMap,
    args: &List<ValueId>,
) -> Result<OpKind, Memory>
    ensures { IfOk result (λ k. k ≡ Apply map.now args.now) }
{
    let map = copy_map(alloc, map)?;
    let args = copy_list(alloc, args.as_slice())?;
    Ok(OpKind::Apply { map, args })
}

pub(crate) fn copy_least(
    alloc: Global,
    map: &AffineMap,
    args: &List<ValueId>,
) -> Result<OpKind, Memory>
    ensures { IfOk result (λ k. k ≡ Least map.now args.now) }
{
    let map = copy_map(alloc, map)?;
    let args = copy_list(alloc, args.as_slice())?;
    Ok(OpKind::Least { map, args })
}

pub(crate) fn copy_empty(alloc: Global, sizes: &List<ValueId>) -> Result<OpKind, Memory>
    ensures { IfOk result (λ k. k ≡ Empty sizes.now) }
{
    let sizes = copy_list(alloc, sizes.as_slice())?;
    Ok(OpKind::Empty { sizes })
}

pub(crate) fn copy_yield(alloc: Global, values: &List<ValueId>) -> Result<OpKind, Memory>
    ensures { IfOk result (λ k. k ≡ Yield values.now) }
{
    let values = copy_list(alloc, values.as_slice())?;
    Ok(OpKind::Yield { values })
}

pub(crate) fn copy_mask(alloc: Global, sizes: &List<ValueId>) -> Result<OpKind, Memory>
    ensures { IfOk result (λ k. k ≡ CreateMask sizes.now) }
{
    let sizes = copy_list(alloc, sizes.as_slice())?;
    Ok(OpKind::CreateMask { sizes })
}

pub(crate) fn copy_elementwise(
    alloc: Global,
    op: &StepOp,
    args: &List<ValueId>,
) -> Result<OpKind, Memory>
    ensures { IfOk result (λ k. k ≡ Elementwise op.now args.now) }
{
    let op = copy_step_op(alloc, op)?;
    let args = copy_list(alloc, args.as_slice())?;
    Ok(OpKind::Elementwise { op, args })
}

pub(crate) fn copy_reduction(
    alloc: Global,
    kind: Combiner,
    source: ValueId,
    acc: ValueId,
    dims: &List<u32>,
) -> Result<OpKind, Memory>
    ensures { IfOk result (λ k. k ≡ MultiReduction kind source acc dims.now) }
{
    let dims = copy_list(alloc, dims.as_slice())?;
    Ok(OpKind::MultiReduction {
        kind,
        source,
        acc,
        dims,
    })
}

pub(crate) fn copy_return(alloc: Global, values: &List<ValueId>) -> Result<OpKind, Memory>
    ensures { IfOk result (λ k. k ≡ Return values.now) }
{
    let values = copy_list(alloc, values.as_slice())?;
    Ok(OpKind::Return { values })
}
