ghost use Rattle.std.specs.Prelude.{◌≡◌, IfOk};
ghost use Rattle.mlir_ir.specs.declared.tree.OpKind.{Generic, Pack, Unpack, Transpose, Broadcast};

use crate::lists::copy_list;
use crate::parts::{copy_maps, copy_payload};
use affine_maps::AffineMap;
use mlir_base::{List, Memory};
use mlir_ir::{Iter, OpKind, ValueId};
use payload_ops::Payload;
use std::alloc::Global;

pub(crate) fn copy_generic(
    alloc: Global,
    maps: &List<AffineMap>,
    iterators: &List<Iter>,
    ins: &List<ValueId>,
    outs: ValueId,
    captured: &List<ValueId>,
    payload: &Payload,
) -> Result<OpKind, Memory>
    ensures { IfOk result (λ k. k ≡ Generic maps.now iterators.now ins.now outs captured.now payload.now) }
{
    let maps = copy_maps(alloc, maps.as_slice())?;
    let iterators = copy_list(alloc, iterators.as_slice())?;
    let ins = copy_list(alloc, ins.as_slice())?;
    let captured = copy_list(alloc, captured.as_slice())?;
    let payload = copy_payload(alloc, payload)?;
    Ok(OpKind::Generic {
        maps,
        iterators,
        ins,
        outs,
        captured,
        payload,
    })
}

pub(crate) fn copy_transpose(
    alloc: Global,
    source: ValueId,
    outs: ValueId,
    order: &List<u32>,
) -> Result<OpKind, Memory>
    ensures { IfOk result (λ k. k ≡ Transpose source outs order.now) }
{
    let order = copy_list(alloc, order.as_slice())?;
    Ok(OpKind::Transpose {
        source,
        outs,
        order,
    })
}

pub(crate) fn copy_broadcast(
    alloc: Global,
    source: ValueId,
    outs: ValueId,
    dims: &List<u32>,
) -> Result<OpKind, Memory>
    ensures { IfOk result (λ k. k ≡ Broadcast source outs dims.now) }
{
    let dims = copy_list(alloc, dims.as_slice())?;
    Ok(OpKind::Broadcast { source, outs, dims })
}

pub(crate) fn copy_pack(
    alloc: Global,
    source: ValueId,
    dest: ValueId,
    value: Option<ValueId>,
    dims: &List<u32>,
    tiles: &List<u32>,
) -> Result<OpKind, Memory>
    ensures { IfOk result (λ k. k ≡ Pack source dest value dims.now tiles.now) }
{
    let dims = copy_list(alloc, dims.as_slice())?;
    let tiles = copy_list(alloc, tiles.as_slice())?;
    Ok(OpKind::Pack {
        source,
        dest,
        value,
        dims,
        tiles,
    })
}

pub(crate) fn copy_unpack(
    alloc: Global,
    source: ValueId,
    dest: ValueId,
    dims: &List<u32>,
    tiles: &List<u32>,
) -> Result<OpKind, Memory>
    ensures { IfOk result (λ k. k ≡ Unpack source dest dims.now tiles.now) }
{
    let dims = copy_list(alloc, dims.as_slice())?;
    let tiles = copy_list(alloc, tiles.as_slice())?;
    Ok(OpKind::Unpack {
        source,
        dest,
        dims,
        tiles,
    })
}
